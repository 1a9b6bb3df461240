// One table of an image: its entries' sizes, their tree, its preorder, and its reported size.
#![tactic(auto)]

ghost use Rattle.std.specs.Prelude.{◌≡◌, ℕ, ◌<◌, ◌≤◌, ◌++◌, true, eqb, length, get_or, take, drop};
ghost use Rattle.units.specs.Told.{pick};
ghost use Rattle.avl_model.specs.Lent.{lists_of, IsSame};
ghost use Rattle.avl_model.specs.Laws.{size};
ghost use Rattle.avl_model.specs.Order.{order};
ghost use Rattle.avl_model.specs.inner.Order.{Listed};
ghost use Rattle.dirtab_grow.specs.inner.Growing.{KeepsLengths};
ghost use Rattle.img_model.specs.Plan.{table_in, size_at, tree_in};
ghost use Rattle.img_model.specs.Columns.{share_in};
ghost use Rattle.img_table.specs.inner.Arranging.{fitting, Fillable, Arrangeable, Arrangement, Sizing};
ghost use Rattle.img_table.specs.inner.Scratch.{places_by, places_in, IsSameScratch};

use avl_model::{Branches, LinksMut, NONE};
use avl_order::preorder;
use dirtab_entry::{Cause, Entries, Kind};
use dirtab_grow::{RefusedEntry, build};
use dirtab_place::measure;
use img_model::{PlanError, Share};

// The refusal of an entry, by its number in the directory or its place in the list of entries.
#[derive(Clone, Copy, Debug, PartialEq, Eq)]
pub enum EntryError {
    // 1, 2, 3, 5, 4, 6: as adding.
    Refused(Cause, u32),
    // 10: a file's length exceeds 4,294,967,295.
    FileTooLarge(u32),
}

impl From<RefusedEntry> for EntryError {
    ghost use Rattle.img_table.specs.declared.EntryError.TheVariants as error;

    ghost from_gives = { λ e r. r ≡ error.Refused e.cause e.entry };

    fn from(e: RefusedEntry) -> EntryError {
        EntryError::Refused(e.cause, e.entry)
    }
}

impl From<EntryError> for PlanError {
    ghost use Rattle.img_table.specs.inner.Arranging.{plan_error};

    ghost from_gives = { λ e r. r ≡ plan_error e };

    fn from(e: EntryError) -> PlanError {
        match e {
            EntryError::Refused(cause, entry) => PlanError::Refused(cause, entry),
            EntryError::FileTooLarge(entry) => PlanError::FileTooLarge(entry),
        }
    }
}

// The columns of scratch that one table is sized in: its entries' tree, the keys of their names and their sizes.
#[derive(Drop)]
pub struct TableScratch<'a> {
    pub left: &'a mut [u16],
    pub right: &'a mut [u16],
    pub parent: &'a mut [u16],
    pub height: &'a mut [u8],
    pub key: &'a mut [u32],
    pub size: &'a mut [u32],
}

// The size of an entry: a directory's is its table's.
// (`kind` is the number that C's column holds, and is made a Kind here.)
fn size_for(kind: u8, value: u64, sized: &[u32]) -> u64
    requires { eqb kind 1 ≡ true → value < length sized.now }
    ensures { result ≡ pick (eqb kind 1) (table_in sized.now value) value }
{
    match Kind::from(kind) {
        Kind::Directory => u64::from(sized[value as usize]),
        Kind::File => value,
    }
}

// The sizes of a directory's entries into the first places of a column, up to the first that four bytes do not
// hold: how many there are. (A count, and no refusal: an entry before it may be refused first.)
pub fn fill_sizes(share: Share<'_>, sized: &[u32], size: &mut [u32]) -> u32
    requires { Fillable (share_in share) (length sized.now) (length size.old) }
    ensures answer { let S = share_in share.entry in
        result ≡ fitting (size_at S (table_in sized.now)) S.count 0 }
    ensures sizes { (i : ℕ) → i < result → get_or size.new i 0 ≡ size_at (share_in share.entry) (table_in sized.now) i }
{
    for (i, &kind) in share.kind.iter().enumerate() {
        let n = size_for(kind, share.value[i], sized);
        if 4294967295 < n {
            return i as u32;
        }
        size[i] = n as u32;
    }
    share.kind.len() as u32
}

// The preorder of a tree that the first n places of its columns hold, into a list of n places.
// (dirtab_held::list_held is the like over shared columns.)
fn list_nodes(links: &LinksMut<'_>, n: usize, list: &mut [u16])
    requires fits { (n ≤ length links.now.left.now) × (n ≤ length links.now.right.now) }
    requires listed { let t = links.now in
        Listed (take n t.left.now) (take n t.right.now) t.root (length list.old) }
    ensures { let t = links.now in
        (w : Listed (take n t.left.now) (take n t.right.now) t.root (length list.old)) →
        list.new ≡ order w.t ++ drop (size w.t) list.old }
{
    let branches = Branches {
        root: links.root,
        left: &links.left[..n],
        right: &links.right[..n],
    };
    preorder(branches, list);
}

// A directory's entries into a tree, and its preorder into `order`.
fn arrange(
    share: Share<'_>,
    sized: &[u32],
    links: &mut LinksMut<'_>,
    key: &mut [u32],
    size: &mut [u32],
    order: &mut [u16],
) -> Result<(), EntryError>
    requires { Arrangeable (share_in share) (length sized.now) (places_by links.old key.old size.old)
        (length order.old) }
    ensures arranged { Arrangement result (tree_in (share_in share.entry) (table_in sized.now)) order.new }
    ensures lengths { KeepsLengths (lists_of links.old) (lists_of links.new) }
    ensures same { IsSame links.old links.new }
{
    let count = fill_sizes(share, sized, size);
    let entries = Entries {
        names: share.names,
        size: &*size,
        kind: share.kind,
    };
    build(count, entries, links, key)?;
    let n = count as usize;
    if n < share.kind.len() {
        return Err(EntryError::FileTooLarge(count));
    }
    list_nodes(links, n, order);
    Ok(())
}

// The size of a directory's table, and its preorder into `order`.
pub fn size_table(
    share: Share<'_>,
    sized: &[u32],
    scratch: &mut TableScratch<'_>,
    order: &mut [u16],
) -> Result<u32, EntryError>
    requires { Arrangeable (share_in share) (length sized.now) (places_in scratch.old) (length order.old) }
    ensures sized { Sizing result (share_in share.entry) (table_in sized.now) order.new }
    ensures places { places_in scratch.new ≡ places_in scratch.old }
    ensures same { IsSameScratch scratch.old scratch.new }
{
    let mut links = LinksMut {
        root: NONE,
        left: &mut *scratch.left,
        right: &mut *scratch.right,
        parent: &mut *scratch.parent,
        height: &mut *scratch.height,
    };
    arrange(share, sized, &mut links, scratch.key, scratch.size, order)?;
    Ok(measure(order, share.names.len))
}
