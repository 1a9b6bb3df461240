// A whole list of entries is written as a table in one call. The columns of the tree are scratch.
#![tactic(auto)]

ghost use Rattle.std.specs.Prelude.{◌≡◌, ◌≤◌, length, replicate, Err};
ghost use Rattle.units.specs.Told.{number_of};
ghost use Rattle.dirtab_grow.specs.Listing.{listing_of};
ghost use Rattle.dirtab_grow.specs.inner.Growing.{Roomy};
ghost use Rattle.dirtab_list.specs.Whole.{told, shortest, has_places, answer_in, lent_after};
ghost use Rattle.dirtab_list.specs.Scratch.{IsSame, lent_by, lists_by};
ghost use Rattle.dirtab_list.specs.inner.Steps.{KeepsLengths, answer_of, output_of};

use avl_model::{LinksMut, NONE};
use dirtab::{Scratch, WriteError, Written, write_held};
use dirtab_entry::{Cause, Entries};
use dirtab_grow::{RefusedEntry, build};
use units::Sector;

// Why a list is not written.
#[derive(Clone, Copy, Debug, PartialEq, Eq)]
pub enum ListError {
    // 6: a lent column is shorter than the count.
    Room,
    // 1, 2, 3, 5, 4, 6: the first entry that adding refuses, by its number in the list.
    Refused(Cause, u32),
    // 7, 8, 9: the table of the tree is not written.
    Write(WriteError),
}

impl ListError {
    // The number of a refusal.
    pub fn number(self) -> u32
        ensures { result ≡ number_of (told (Err self)) }
    {
        match self {
            ListError::Room => 6,
            ListError::Refused(cause, _) => cause.number(),
            ListError::Write(error) => error.number(),
        }
    }
}

impl From<RefusedEntry> for ListError {
    ghost use Rattle.dirtab_list.specs.declared.ListError.TheVariants.{Refused};

    ghost from_gives = { λ refused error. error ≡ Refused refused.cause refused.entry };

    fn from(refused: RefusedEntry) -> ListError {
        ListError::Refused(refused.cause, refused.entry)
    }
}

impl From<WriteError> for ListError {
    ghost use Rattle.dirtab_list.specs.declared.ListError.TheVariants.{Write};

    ghost from_gives = { λ write error. error ≡ Write write };

    fn from(error: WriteError) -> ListError {
        ListError::Write(error)
    }
}

// What writing a list is lent as scratch: the columns of a tree, the keys of its names, and the order and the places
// of its entries. All are slices, since C lends them.
#[derive(Drop)]
pub struct ListScratch<'a> {
    pub left: &'a mut [u16],
    pub right: &'a mut [u16],
    pub parent: &'a mut [u16],
    pub height: &'a mut [u8],
    pub key: &'a mut [u32],
    pub order: &'a mut [u16],
    pub place: &'a mut [u16],
}

impl ListScratch<'_> {
    // The length of the shortest column.
    fn shortest(&self) -> usize
        ensures { let s = self.now in
            result ≡ shortest s.left.now s.right.now s.parent.now s.height.now s.key.now s.order.now s.place.now }
    {
        self.left
            .len()
            .min(self.right.len())
            .min(self.parent.len())
            .min(self.height.len())
            .min(self.key.len())
            .min(self.order.len())
            .min(self.place.len())
    }

    // Zero everywhere, in all columns.
    fn clear(&mut self)
        ensures left { self.new.left.now ≡ replicate (length self.old.left.now) 0 }
        ensures right { self.new.right.now ≡ replicate (length self.old.right.now) 0 }
        ensures parent { self.new.parent.now ≡ replicate (length self.old.parent.now) 0 }
        ensures height { self.new.height.now ≡ replicate (length self.old.height.now) 0 }
        ensures key { self.new.key.now ≡ replicate (length self.old.key.now) 0 }
        ensures order { self.new.order.now ≡ replicate (length self.old.order.now) 0 }
        ensures place { self.new.place.now ≡ replicate (length self.old.place.now) 0 }
        ensures same { IsSame self.old self.new }
    {
        self.left.fill(0);
        self.right.fill(0);
        self.parent.fill(0);
        self.height.fill(0);
        self.key.fill(0);
        self.order.fill(0);
        self.place.fill(0);
    }
}

// Each column of the entries has at least `count` places, and so has a column of scratch of the length `shortest`.
fn has_places(count: u32, entries: Entries<'_>, shortest: usize) -> bool
    ensures { result ≡ has_places (listing_of count entries.entry) shortest }
{
    let n = count as usize;
    n <= entries.names.start.len()
        && n <= entries.names.len.len()
        && n <= entries.size.len()
        && n <= entries.kind.len()
        && n <= shortest
}

// The table of a list whose columns are long enough. What it leaves in the scratch is not cleared.
fn write_checked(
    count: u32,
    entries: Entries<'_>,
    first: Sector,
    scratch: &mut ListScratch<'_>,
    out: &mut [u8],
) -> Result<Written, ListError>
    requires { let s = scratch.old in
        Roomy (listing_of count entries) (lists_by s) s.key.now count
        × ((count ≤ length s.order.now) × (count ≤ length s.place.now)) }
    ensures answer { told result ≡ answer_of (listing_of count entries.entry) first.0 (length out.old) }
    ensures out { out.new ≡ output_of (listing_of count entries.entry) first.0 out.old }
    ensures lengths { KeepsLengths scratch.old scratch.new }
    ensures same { IsSame scratch.old scratch.new }
{
    let mut links = LinksMut {
        root: NONE,
        left: &mut *scratch.left,
        right: &mut *scratch.right,
        parent: &mut *scratch.parent,
        height: &mut *scratch.height,
    };
    build(count, entries, &mut links, scratch.key)?;
    let mut listing = Scratch {
        order: &mut *scratch.order,
        place: &mut *scratch.place,
    };
    let written = write_held(
        links.branches(),
        count as u16,
        entries,
        first,
        &mut listing,
        out,
    )?;
    Ok(written)
}

// The table of the first `count` entries of a list, in one call: as adding each of them in turn to an empty arena,
// and then serialising.
pub fn write_list(
    count: u32,
    entries: Entries<'_>,
    first: Sector,
    scratch: &mut ListScratch<'_>,
    out: &mut [u8],
) -> Result<Written, ListError>
    ensures answer { let list = listing_of count entries.entry in
        told result ≡ answer_in list first.0 (lent_by scratch.old out.old) }
    ensures memory { let list = listing_of count entries.entry in
        lent_by scratch.new out.new ≡ lent_after list first.0 (lent_by scratch.old out.old) }
    ensures same { IsSame scratch.old scratch.new }
{
    if !has_places(count, entries, scratch.shortest()) {
        return Err(ListError::Room);
    }
    let written = write_checked(count, entries, first, scratch, out);
    scratch.clear();
    written
}
