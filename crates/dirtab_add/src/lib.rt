// An entry is added to the table that an arena holds.
#![tactic(auto)]

ghost use Rattle.std.specs.Prelude.{◌≡◌, true, ◌+◌, ◌≤◌, ◌<◌, length, set, take};
ghost use Rattle.units.specs.Told.{number_of};
ghost use Rattle.dirtab_entry.specs.Entry.{is_directory, stored_size, name_in, kind_number};
ghost use Rattle.avl_model.specs.declared.Place.TheVariants.{Root};
ghost use Rattle.avl_model.specs.Lists.{lists};
ghost use Rattle.avl_model.specs.Names.{to_name, is_less};
ghost use Rattle.avl_model.specs.Seek.{spot_in};
ghost use Rattle.avl_model.specs.inner.Seek.{Sought};
ghost use Rattle.avl_model.specs.Tree.{ins};
ghost use Rattle.avl_model.specs.inner.Insert.{Placed};
ghost use Rattle.avl_model.specs.Columns.{written};
ghost use Rattle.avl_arena.specs.Test.{part_of};
ghost use Rattle.dirtab_arena.specs.Arena.{arena, names_of};
ghost use Rattle.dirtab_arena.specs.Lent.{columns_in, columns_of, arena_of, arena_with, IsSame};
ghost use Rattle.dirtab_add.specs.Add.{has_room, told, add_of, columns_after};
ghost use Rattle.dirtab_add.specs.inner.Judging.{Checked, Judged, HasPlace, stored_at};

use avl_insert::{find_spot, put_in};
use avl_model::{Branches, Place, Spot};
use dirtab_arena::{Arena, Columns, ColumnsMut, Held, is_arena};
use dirtab_entry::{Cause, Entry, check_entry, stored_size};

// Why adding refuses.
#[derive(Clone, Copy, Debug, PartialEq, Eq)]
pub enum AddError {
    // 12: the held nodes are not one ordered, balanced tree of entries that adding takes.
    BadArena,
    // 1, 2, 3, 5, 4, 6: the entry. 6 where the arena is full, or holds 16,384 entries or more.
    Refused(Cause),
}

impl AddError {
    // The number of the refusal.
    pub fn number(self) -> u32
        ensures { result ≡ number_of (told (Err self)) }
    {
        match self {
            AddError::BadArena => 12,
            AddError::Refused(cause) => cause.number(),
        }
    }
}

impl From<Cause> for AddError {
    ghost use Rattle.dirtab_add.specs.declared.AddError.TheVariants.{Refused};

    ghost from_gives = { λ cause error. error ≡ Refused cause };

    fn from(cause: Cause) -> AddError {
        AddError::Refused(cause)
    }
}

// There is a place more in every column, and fewer than 16,384 entries are held.
// (A test for each column: their elements are of different types, so there is no loop over them.)
#[tactic(auto, unfolding(crate::specs::Add::has_room))]
fn has_room(count: u16, columns: Columns) -> bool
    ensures { result ≡ has_room count (columns_in columns.entry) }
{
    let n = count as usize;
    n < 16384
        && n < columns.left.len()
        && n < columns.right.len()
        && n < columns.parent.len()
        && n < columns.height.len()
        && n < columns.start.len()
        && n < columns.len.len()
        && n < columns.size.len()
        && n < columns.kind.len()
}

// Where the entry's name stands in the tree of the first `count` places, or would hang.
fn find_place(arena: Arena, entry: Entry) -> Spot
    requires count_in_bounds { (arena.tree.count ≤ length arena.columns.left.now)
        × (arena.tree.count ≤ length arena.columns.right.now)
        × (entry.start + entry.len ≤ length arena.names.now) × (entry.len ≤ 255) }
    requires sought { Sought (take arena.tree.count arena.columns.left.now)
        (take arena.tree.count arena.columns.right.now) arena.tree.root (names_of (arena_of arena)) }
    ensures { let A = arena_of arena.entry in
        ((w : Sought (take A.count A.columns.left) (take A.count A.columns.right) A.root (names_of A)) →
        result ≡ spot_in (to_name (names_of A) (name_in A.bytes entry)) w.linked.t Root) }
{
    let n = arena.tree.count as usize;
    let start = entry.start as usize;
    let end = start + (entry.len as usize);
    let branches = Branches {
        root: arena.tree.root,
        left: &arena.columns.left[..n],
        right: &arena.columns.right[..n],
    };
    find_spot(branches, arena.names(), &arena.names[start..end])
}

// Of an entry that adding takes by itself, the place for its node: 4 where its name is there, then 6.
fn judge_name(arena: Arena, entry: Entry) -> Result<Place, AddError>
    requires { Checked (arena_of arena) entry }
    ensures { Judged result (arena_of arena.entry) entry }
{
    match find_place(arena, entry) {
        Spot::Same(_) => Err(AddError::Refused(Cause::DuplicateFileName)),
        Spot::Free(place) => {
            if has_room(arena.tree.count, arena.columns) {
                Ok(place)
            } else {
                Err(AddError::Refused(Cause::Room))
            }
        }
    }
}

// All checks, in their order: 12, 1, 2, 3, 5, 4, 6. (The arena's parts stand apart: `add` lends its columns for this
// call alone, and the names for longer.)
fn judge<'a>(
    tree: Held,
    columns: Columns<'a>,
    names: &'a [u8],
    entry: Entry,
) -> Result<Place, AddError>
    ensures { Judged result (arena tree.root tree.count (columns_in columns.entry) names.now) entry }
{
    let arena = Arena {
        tree,
        columns,
        names,
    };
    if !is_arena(arena) {
        return Err(AddError::BadArena);
    }
    check_entry(names, entry)?;
    judge_name(arena, entry)
}

// The entry's own numbers, at its place.
fn store_entry(columns: &mut ColumnsMut<'_>, i: usize, entry: Entry)
    requires in_bounds { HasPlace (columns_of columns.old) i }
    requires size_bound { is_directory entry.kind ≡ true → entry.size ≤ 4294965248 }
    ensures stored { columns_of columns.new ≡ stored_at (columns_of columns.old) i entry }
    ensures same { IsSame columns.old columns.new }
{
    columns.start[i] = entry.start;
    columns.len[i] = entry.len;
    columns.size[i] = stored_size(entry.kind, entry.size);
    columns.kind[i] = u8::from(entry.kind);
}

// The new node, whose number is the count, put into the first count + 1 places. The answer is the root. The columns
// come one by one: of a part of a column that a struct holds, no proof knows what becomes of the whole.
fn grow(
    tree: Held,
    left: &mut [u16],
    right: &mut [u16],
    parent: &mut [u16],
    height: &mut [u8],
    place: Place,
) -> u16
    requires count_in_bounds { (tree.count < length left.old) × (tree.count < length right.old)
        × (tree.count < length parent.old) × (tree.count < length height.old) }
    requires placed { Placed (part_of (tree.count + 1) (lists tree.root left.old right.old parent.old height.old))
        place tree.count }
    ensures { let s = lists tree.root left.old right.old parent.old height.old in
        ((w : Placed (part_of (tree.count + 1) s) place tree.count) →
        lists result left.new right.new parent.new height.new
        ≡ written (ins (λ i. is_less (w.by i)) tree.count w.arena.t) s) }
{
    let n = (tree.count as usize) + 1;
    let mut root = tree.root;
    put_in(
        &mut root,
        &mut left[..n],
        &mut right[..n],
        &mut parent[..n],
        &mut height[..n],
        place,
        tree.count,
    );
    root
}

// Adds an entry, or refuses it and leaves all as it was.
pub fn add(
    tree: Held,
    columns: &mut ColumnsMut<'_>,
    names: &[u8],
    entry: Entry,
) -> Result<Held, AddError>
    ensures answer { told result ≡ add_of (arena_with tree columns.old names.now) entry }
    ensures memory { columns_of columns.new ≡ columns_after (arena_with tree columns.old names.now) entry }
    ensures same { IsSame columns.old columns.new }
{
    let place = judge(tree, columns.shared(), names, entry)?;
    store_entry(columns, tree.count as usize, entry);
    let root = grow(
        tree,
        columns.left,
        columns.right,
        columns.parent,
        columns.height,
        place,
    );
    Ok(Held {
        root,
        count: tree.count + 1,
    })
}
