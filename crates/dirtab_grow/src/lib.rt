// A list's entries are put one after another into a tree that lent columns hold, without a check of what the
// columns held before.
#![tactic(auto)]

ghost use Rattle.std.specs.Prelude.{◌≡◌, true, ◌-◌, ◌≤◌, ◌<◌, length, get_or};
ghost use Rattle.units.specs.Told.{Told, gives};
ghost use Rattle.dirtab_entry.specs.Entry.{check_of};
ghost use Rattle.dirtab_entry.specs.Entries.{HasPlace};
ghost use Rattle.std.specs.declared.cmp.Ordering.TheVariants.{Greater};
ghost use Rattle.avl_model.specs.declared.Place.TheVariants.{Root};
ghost use Rattle.avl_model.specs.Tree.{Tree, ins};
ghost use Rattle.avl_model.specs.Lists.{lists};
ghost use Rattle.avl_model.specs.Lent.{names_of, lists_of, IsSame};
ghost use Rattle.avl_model.specs.Names.{name_at, by_name, is_less};
ghost use Rattle.avl_model.specs.inner.Names.{Inside};
ghost use Rattle.avl_model.specs.Seek.{spot_in, tree_at};
ghost use Rattle.avl_keyed.specs.inner.Key.{key_for, KeySought};
ghost use Rattle.dirtab_grow.specs.Listing.{listing_of, given_in};
ghost use Rattle.dirtab_grow.specs.Grow.{grow};
ghost use Rattle.dirtab_grow.specs.inner.Growing.{After, Growing, Hangable, Wide, Roomy, KeepsLengths};
ghost use Rattle.dirtab_grow.specs.inner.Growing.{Found, Seated, Stepped, Outcome};

use avl_insert::put_in;
use avl_keyed::{key_of, seek};
use avl_model::{Branches, LinksMut, NONE, Names, Place, Spot, node_name};
use dirtab_entry::{Cause, Entries, check_entry, nth_entry};
use layout_name::compare;

// Where an entry goes, and the key of its name.
#[derive(Clone, Copy)]
pub struct Seat {
    pub place: Place,
    pub key: u32,
}

// The refusal of an entry, by its number in the list.
#[derive(Clone, Copy, Debug, PartialEq, Eq)]
pub struct RefusedEntry {
    pub cause: Cause,
    pub entry: u32,
}

// The place in the tree of the entry `new`, of whose name k is the key: 4 where its name is there.
fn find_place(
    branches: Branches<'_>,
    key: &[u32],
    names: Names<'_>,
    new: u16,
    name: &[u8],
    k: u32,
) -> Result<Place, Cause>
    requires key_sought { KeySought branches.left.now branches.right.now key.now branches.root (names_of names) }
    requires name_is { name.now ≡ name_at (names_of names) new }
    requires key_is { k ≡ key_for name.now }
    ensures { let b = branches.entry in
        let n = names_of names.entry in
        ((w : KeySought b.left.now b.right.now key.now b.root n) →
        Found result (spot_in (by_name n new) w.linked.t Root) new) }
{
    match seek(branches, key, names, name, k) {
        Spot::Same(_) => Err(Cause::DuplicateFileName),
        Spot::Free(place) => Ok(place),
    }
}

// Where the entry `new` goes in the tree, with no search where it is known to come after the entry before it: 4 where
// its name is there, 6 where 16,384 entries are.
// (`after` is a flag: whether the search is needed. A closure in its place would hold the search or nothing.)
fn choose_seat(
    branches: Branches<'_>,
    key: &[u32],
    names: Names<'_>,
    new: u16,
    after: bool,
) -> Result<Seat, Cause>
    requires key_sought { KeySought branches.left.now branches.right.now key.now branches.root (names_of names) }
    requires inside { Inside (names_of names) new }
    requires after { After after (names_of names) (tree_at 100 branches.left.now branches.right.now branches.root)
        new }
    ensures { let b = branches.entry in
        let n = names_of names.entry in
        ((w : KeySought b.left.now b.right.now key.now b.root n) →
        Seated result n (spot_in (by_name n new) w.linked.t Root) new) }
{
    let name = node_name(names, new);
    let k = key_of(name);
    let place = if after {
        Place::Right(new - 1)
    } else {
        find_place(branches, key, names, new, name, k)?
    };
    if 16384 <= new {
        return Err(Cause::Room);
    }
    Ok(Seat { place, key: k })
}

// Puts the entry `new`, the last that the columns have a place for, into the tree. The columns are parameters of
// their own, here and in `add_entry`: a struct made of parts of them (`left: &mut left[..end]`) is proved to keep their
// lengths, and not what becomes of them.
pub fn hang_entry(
    root: &mut u16,
    left: &mut [u16],
    right: &mut [u16],
    parent: &mut [u16],
    height: &mut [u8],
    key: &mut [u32],
    names: Names<'_>,
    new: u16,
    after: bool,
) -> Result<(), Cause>
    requires hangable { Hangable (lists root.old left.old right.old parent.old height.old) key.old
        (names_of names) new }
    requires after { After after (names_of names) (tree_at 100 left.old right.old root.old) new }
    ensures { let before = lists root.old left.old right.old parent.old height.old in
        let after = lists root.new left.new right.new parent.new height.new in
        let n = names_of names.entry in
        ((w : Growing before key.old n new) →
        Stepped result (gives tt) (spot_in (by_name n new) w.t Root) new
        after key.new n (ins (λ i. is_less (by_name n new i)) new w.t)) }
{
    let branches = Branches {
        root: *root,
        left: &*left,
        right: &*right,
    };
    let seat = choose_seat(branches, key, names, new, after)?;
    key[new as usize] = seat.key;
    put_in(root, left, right, parent, height, seat.place, new);
    Ok(())
}

// The entry i: its own checks, and then its place in the tree of those before it, in the first i + 1 places of the
// columns.
fn add_entry(
    entries: Entries<'_>,
    root: &mut u16,
    left: &mut [u16],
    right: &mut [u16],
    parent: &mut [u16],
    height: &mut [u8],
    key: &mut [u32],
    i: u16,
    after: bool,
) -> Result<(), Cause>
    requires has_place { HasPlace entries i }
    requires wide { Wide (lists root.old left.old right.old parent.old height.old) key.old i }
    requires growing { let s = lists root.old left.old right.old parent.old height.old in
        let n = names_of entries.names in
        ((w : Growing s key.old n i) × After after n w.t i) }
    ensures { let before = lists root.old left.old right.old parent.old height.old in
        let after = lists root.new left.new right.new parent.new height.new in
        let list = listing_of 0 entries.entry in
        let n = names_of entries.entry.names in
        ((w : Growing before key.old n i) →
        Stepped result (check_of list.bytes (given_in list i)) (spot_in (by_name n i) w.t Root) i
        after key.new n (ins (λ j. is_less (by_name n i j)) i w.t)) }
{
    let at = i as usize;
    check_entry(entries.names.bytes, nth_entry(entries, at))?;
    let end = at + 1;
    hang_entry(
        root,
        &mut left[..end],
        &mut right[..end],
        &mut parent[..end],
        &mut height[..end],
        key,
        entries.names,
        i,
        after,
    )
}

// The name of an entry stands inside the bytes lent for names.
// (That the columns have the place is asked, here and below, and no type holds it: it is of this entry and its
// columns.)
fn has_name(names: Names<'_>, at: u16) -> bool
    requires { (at < length names.start.now) × (at < length names.len.now) }
    ensures { result ≡ true → Inside (names_of names.entry) at }
{
    let i = at as usize;
    let end = names.start[i] as usize + names.len[i] as usize;
    end <= names.bytes.len()
}

// The name of an entry is greater than that of the entry before it.
fn comes_after(names: Names<'_>, at: u16) -> bool
    requires { (at < length names.start.now) × (at < length names.len.now) × (0 < at) }
    ensures { result ≡ true → by_name (names_of names.entry) at (at - 1) ≡ Greater }
{
    let before = at - 1;
    if has_name(names, at) && has_name(names, before) {
        return compare(node_name(names, at), node_name(names, before)).is_gt();
    }
    false
}

// The entries so far came in order (`up`), and the next one goes on so.
// (`up` is a flag that the loop of `build` carries, and selects no step here.)
fn goes_up(names: Names<'_>, at: u16, up: bool) -> bool
    requires { (at < length names.start.now) × (at < length names.len.now) × (up ≡ true → 0 < at) }
    ensures { result ≡ true → (up ≡ true) × (by_name (names_of names.entry) at (at - 1) ≡ Greater) }
{
    up && comes_after(names, at)
}

// The first `count` entries of a list, one after another, into the tree that the columns hold afterwards in their
// first places.
pub fn build(
    count: u32,
    entries: Entries<'_>,
    links: &mut LinksMut<'_>,
    key: &mut [u32],
) -> Result<(), RefusedEntry>
    requires { Roomy (listing_of count entries) (lists_of links.old) key.old count }
    ensures built { let list = listing_of count entries.entry in
        Outcome result (grow list.bytes (given_in list) count)
        (lists_of links.new) (names_of entries.entry.names) count }
    ensures lengths { KeepsLengths (lists_of links.old) (lists_of links.new) }
    ensures same { IsSame links.old links.new }
{
    links.root = NONE;
    let mut up = false;
    for i in 0..count {
        let at = i as u16;
        let after = goes_up(entries.names, at, up);
        add_entry(
            entries,
            &mut links.root,
            links.left,
            links.right,
            links.parent,
            links.height,
            key,
            at,
            after,
        )
        .map_err(|cause| RefusedEntry { cause, entry: i })?;
        up = after | (i == 0);
    }
    Ok(())
}
