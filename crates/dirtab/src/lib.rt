// A table is written: from an arena, or from a whole list in one call.
#![tactic(auto)]

ghost use Rattle.std.specs.Prelude.{◌≡◌, ◌≤◌, true, Err, min, leb, length, replicate};
ghost use Rattle.units.specs.Told.{number_of};
ghost use Rattle.avl_model.specs.Tree.{Tree};
ghost use Rattle.dirtab_arena.specs.Lent.{arena_of};
ghost use Rattle.dirtab.specs.Serialise.{scratch_fits, told_write, told, lent_of, places_in, answer_in, lent_after};
ghost use Rattle.dirtab.specs.Serialise.{IsSame, KeepsLengths};
ghost use Rattle.dirtab_write.specs.inner.Columns.{entry_by};
ghost use Rattle.dirtab_held.specs.inner.Held.{cols_in, Listing, Rooted};
ghost use Rattle.dirtab.specs.inner.Steps.{size_from, writing_of, writing_out};

use avl_model::Branches;
use dirtab_arena::{Arena, is_arena};
use dirtab_entry::Entries;
use dirtab_held::list_held;
use dirtab_place::{TooManyDirectoryEntries, count_sectors, place_entries};
use dirtab_write::{Layout, write_table};
use layout_sector::SectorOverflow;
use units::Sector;

// A table that is written: its reported size, and the next free sector.
#[derive(Clone, Copy, Debug, PartialEq, Eq)]
pub struct Written {
    pub size: u32,
    pub free: Sector,
}

// Why a table is not written.
#[derive(Clone, Copy, Debug, PartialEq, Eq)]
pub enum WriteError {
    // 7: an offset over 4 exceeds 65,535.
    TooManyDirectoryEntries,
    // 8: the next free sector would exceed 4,294,967,295.
    SectorOverflow,
    // 9: the output is shorter than the rounded size.
    BufferTooSmall,
}

impl WriteError {
    // The number of the refusal.
    pub fn number(self) -> u32
        ensures { result ≡ number_of (told_write (Err self)) }
    {
        match self {
            WriteError::TooManyDirectoryEntries => 7,
            WriteError::SectorOverflow => 8,
            WriteError::BufferTooSmall => 9,
        }
    }
}

impl From<TooManyDirectoryEntries> for WriteError {
    ghost use Rattle.dirtab.specs.declared.WriteError.TheVariants as error;

    ghost from_gives = { λ e r. r ≡ error.TooManyDirectoryEntries };

    fn from(_e: TooManyDirectoryEntries) -> WriteError {
        WriteError::TooManyDirectoryEntries
    }
}

impl From<SectorOverflow> for WriteError {
    ghost use Rattle.dirtab.specs.declared.WriteError.TheVariants as error;

    ghost from_gives = { λ e r. r ≡ error.SectorOverflow };

    fn from(_e: SectorOverflow) -> WriteError {
        WriteError::SectorOverflow
    }
}

// Why an arena is not serialised.
#[derive(Clone, Copy, Debug, PartialEq, Eq)]
pub enum SerialiseError {
    // 12: the arena.
    BadArena,
    // 6: the scratch is shorter than the held count.
    Room,
    // 7, 8, 9: the table.
    Write(WriteError),
}

impl SerialiseError {
    // The number of the refusal.
    pub fn number(self) -> u32
        ensures { result ≡ number_of (told (Err self)) }
    {
        match self {
            SerialiseError::BadArena => 12,
            SerialiseError::Room => 6,
            SerialiseError::Write(e) => e.number(),
        }
    }
}

impl From<WriteError> for SerialiseError {
    ghost use Rattle.dirtab.specs.declared.SerialiseError.TheVariants as error;

    ghost from_gives = { λ e r. r ≡ error.Write e };

    fn from(e: WriteError) -> SerialiseError {
        SerialiseError::Write(e)
    }
}

// What writing is lent beside its output: a column for the numbers of the entries in preorder, and one for the offset
// over 4 of each. They are slices, since C lends them.
#[derive(Drop)]
pub struct Scratch<'a> {
    pub order: &'a mut [u16],
    pub place: &'a mut [u16],
}

impl<'a> Scratch<'a> {
    // Both columns have a place for each of so many nodes.
    fn has_room(&self, count: u16) -> bool
        ensures { result ≡ leb count (min (length self.now.order.now) (length self.now.place.now)) }
    {
        usize::from(count) <= self.order.len().min(self.place.len())
    }

    // Zero everywhere, in both columns.
    fn clear(&mut self)
        ensures order { self.new.order.now ≡ replicate (length self.old.order.now) 0 }
        ensures place { self.new.place.now ≡ replicate (length self.old.place.now) 0 }
        ensures same { IsSame self.old self.new }
    {
        self.order.fill(0);
        self.place.fill(0);
    }
}

// The reported size of a table whose entries end at `end`: an empty one has 2,048 bytes.
#[tactic(auto, using(crate::proofs::Listed::empty_size, crate::proofs::Listed::some_size))]
fn size_from(end: u32) -> u32
    ensures { result ≡ size_from end }
{
    if end == 0 { 2048 } else { end }
}

// The table of the entries that are listed: 7, 8, 9 before any byte of the output is written.
fn write_listed(
    order: &[u16],
    branches: Branches<'_>,
    entries: Entries<'_>,
    first: Sector,
    place: &mut [u16],
    out: &mut [u8],
) -> Result<Written, WriteError>
    requires { (t : Tree) × Listing order.now (cols_in branches entries) (length place.old) t }
    ensures answer { let c = cols_in branches.entry entries.entry in
        ((t : Tree) → Listing order.now c (length place.old) t →
        told_write result ≡ writing_of (entry_by c) first.0 t (length out.old)) }
    ensures out { let c = cols_in branches.entry entries.entry in
        ((t : Tree) → Listing order.now c (length place.old) t →
        out.new ≡ writing_out (entry_by c) first.0 t out.old) }
{
    let end = place_entries(order, entries.names.len, place)?;
    let free = count_sectors(order, entries.size, entries.kind, first)?;
    let size = size_from(end);
    let n = (size as usize).next_multiple_of(2048);
    if out.len() < n {
        return Err(WriteError::BufferTooSmall);
    }
    let layout = Layout {
        branches,
        place: &*place,
        entries,
    };
    write_table(out, n, order, layout, first);
    Ok(Written { size, free })
}

// `write_held` over the columns of the scratch one by one: a part of one is taken only here, since a part of a
// struct's column beside another column of it has no proof.
fn write_tree(
    branches: Branches<'_>,
    count: u16,
    entries: Entries<'_>,
    first: Sector,
    order: &mut [u16],
    place: &mut [u16],
    out: &mut [u8],
) -> Result<Written, WriteError>
    requires { ((t : Tree) × Rooted (cols_in branches entries) branches.root count t)
        × (count ≤ length order.old) × (count ≤ length place.old) }
    ensures answer { let c = cols_in branches.entry entries.entry in
        ((t : Tree) → Rooted c branches.entry.root count t →
        told_write result ≡ writing_of (entry_by c) first.0 t (length out.old)) }
    ensures out { let c = cols_in branches.entry entries.entry in
        ((t : Tree) → Rooted c branches.entry.root count t →
        out.new ≡ writing_out (entry_by c) first.0 t out.old) }
{
    list_held(branches, count, order);
    write_listed(
        &order[..count as usize],
        branches,
        entries,
        first,
        place,
        out,
    )
}

// The table of the tree that the first `count` places of the columns hold.
pub fn write_held(
    branches: Branches<'_>,
    count: u16,
    entries: Entries<'_>,
    first: Sector,
    scratch: &mut Scratch<'_>,
    out: &mut [u8],
) -> Result<Written, WriteError>
    requires { ((t : Tree) × Rooted (cols_in branches entries) branches.root count t)
        × (count ≤ length scratch.old.order.now) × (count ≤ length scratch.old.place.now) }
    ensures answer { let c = cols_in branches.entry entries.entry in
        ((t : Tree) → Rooted c branches.entry.root count t →
        told_write result ≡ writing_of (entry_by c) first.0 t (length out.old)) }
    ensures out { let c = cols_in branches.entry entries.entry in
        ((t : Tree) → Rooted c branches.entry.root count t →
        out.new ≡ writing_out (entry_by c) first.0 t out.old) }
    ensures lengths { KeepsLengths scratch.old scratch.new }
    ensures same { IsSame scratch.old scratch.new }
{
    write_tree(
        branches,
        count,
        entries,
        first,
        scratch.order,
        scratch.place,
        out,
    )
}

// The table of the arena, or 12. What it leaves in the scratch is not cleared.
fn write_arena(
    arena: Arena<'_>,
    first: Sector,
    scratch: &mut Scratch<'_>,
    out: &mut [u8],
) -> Result<Written, SerialiseError>
    requires { scratch_fits (arena_of arena) (places_in (lent_of scratch.old out.old)) ≡ true }
    ensures answer { let A = arena_of arena.entry in
        told result ≡ answer_in A first.0 (lent_of scratch.old out.old) }
    ensures out { let A = arena_of arena.entry in
        out.new ≡ (lent_after A first.0 (lent_of scratch.old out.old)).out }
    ensures lengths { KeepsLengths scratch.old scratch.new }
    ensures same { IsSame scratch.old scratch.new }
{
    if !is_arena(arena) {
        return Err(SerialiseError::BadArena);
    }
    let written = write_held(
        arena.branches(),
        arena.tree.count,
        arena.entries(),
        first,
        scratch,
        out,
    )?;
    Ok(written)
}

// Writes the table of the arena into the first bytes of the output, up to the size rounded to whole sectors, with
// sectors from `first` on. The answer is the reported size and the next free sector, or a refusal: 12, 6, 7, 8, 9,
// and then the output is unchanged. Both columns of scratch need a place for each held node; where one has not,
// both are unchanged, and else both are all zero after the call.
pub fn serialise(
    arena: Arena<'_>,
    first: Sector,
    scratch: &mut Scratch<'_>,
    out: &mut [u8],
) -> Result<Written, SerialiseError>
    ensures answer { let A = arena_of arena.entry in
        told result ≡ answer_in A first.0 (lent_of scratch.old out.old) }
    ensures memory { let A = arena_of arena.entry in
        lent_of scratch.new out.new ≡ lent_after A first.0 (lent_of scratch.old out.old) }
    ensures same { IsSame scratch.old scratch.new }
{
    if scratch.has_room(arena.tree.count) {
        let answer = write_arena(arena, first, scratch, out);
        scratch.clear();
        return answer;
    }
    if is_arena(arena) {
        Err(SerialiseError::Room)
    } else {
        Err(SerialiseError::BadArena)
    }
}
