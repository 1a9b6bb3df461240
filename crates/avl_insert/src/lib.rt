// Insertion by name into the balanced tree that lent columns hold; nothing is asked of what the columns hold for
// numbers that are not in the tree.
#![tactic(auto)]

ghost use Rattle.std.specs.Prelude.{◌≡◌, ◌≤◌, ◌<◌, length, get_or};
ghost use Rattle.layout_name.specs.inner.Order.{raised_copy};
ghost use Rattle.avl_model.specs.declared.Place.TheVariants.{Root};
ghost use Rattle.avl_model.specs.Tree.{bal, ins, none};
ghost use Rattle.avl_model.specs.inner.Rep.{climb};
ghost use Rattle.avl_model.specs.Lists.{lists};
ghost use Rattle.avl_model.specs.Lent.{IsSame, lists_of, names_of};
ghost use Rattle.avl_model.specs.inner.Lists.{above_of, attached};
ghost use Rattle.avl_model.specs.inner.Held.{Ready, Whole};
ghost use Rattle.avl_model.specs.Names.{to_name, is_less};
ghost use Rattle.avl_model.specs.Seek.{spot_in};
ghost use Rattle.avl_model.specs.inner.Seek.{Sought};
ghost use Rattle.avl_model.specs.inner.Insert.{Placed};

use avl_model::{Branches, LinksMut, NONE, Names, Place, Spot, node_name};
use avl_turn::{put, settle};
use layout_name::{compare_raised, raise_name};
use std::cmp::Ordering;

// Where a name, of which `copy` is the raised copy, stands or would hang.
// (`Sought`, as `KeySought` and `Ready`, is a named fact and no invariant of the columns, which may hold anything
// when C lends them.)
fn descend(branches: Branches<'_>, names: Names<'_>, copy: &[u8; 255], name: &[u8]) -> Spot
    requires sought { Sought branches.left.now branches.right.now branches.root (names_of names) }
    requires name_len_bound { (length name.now ≤ 255) × (copy.now ≡ raised_copy name.now) }
    ensures { let b = branches.entry in let names_held = names_of names.entry in
        (w : Sought b.left.now b.right.now b.root names_held) →
        result ≡ spot_in (to_name names_held name.now) w.linked.t Root }
{
    let mut at = branches.root;
    let mut place = Place::Root;
    // A walk along links, and no count.
    while at < NONE {
        let i = at as usize;
        match compare_raised(copy, name, node_name(names, at)) {
            Ordering::Equal => return Spot::Same(at),
            Ordering::Less => {
                place = Place::Left(at);
                at = branches.left[i];
            }
            Ordering::Greater => {
                place = Place::Right(at);
                at = branches.right[i];
            }
        }
    }
    Spot::Free(place)
}

// Where a name stands in the tree, or would hang.
pub fn find_spot(branches: Branches<'_>, names: Names<'_>, name: &[u8]) -> Spot
    requires sought { Sought branches.left.now branches.right.now branches.root (names_of names) }
    requires name_len_bound { length name.now ≤ 255 }
    ensures { let b = branches.entry in let names_held = names_of names.entry in
        (w : Sought b.left.now b.right.now b.root names_held) →
        result ≡ spot_in (to_name names_held name.now) w.linked.t Root }
{
    let copy = raise_name(name);
    descend(branches, names, &copy, name)
}

// The parent at a place.
// (No From: it is what the column of parents holds for the place, NONE for the root's.)
fn above(place: Place) -> u16
    ensures { result ≡ above_of place }
{
    match place {
        Place::Root => NONE,
        Place::Left(p) => p,
        Place::Right(p) => p,
    }
}

// A node with no children, at a place. Its height is made as the climb starts.
fn attach(links: &mut LinksMut<'_>, place: Place, new: u16)
    requires { let old = links.old in (new < length old.left.now) × (new < length old.right.now)
        × (new < length old.parent.now) × (new < length old.height.now) }
    ensures same { IsSame links.old links.new }
    ensures attached { lists_of links.new ≡ attached (lists_of links.old) place new }
{
    put(links, place, new);
    let i = new as usize;
    links.left[i] = NONE;
    links.right[i] = NONE;
    links.parent[i] = above(place);
    links.height[i] = 0;
}

// From a node whose child has changed upwards: heights, and rotations where they are needed, as far as a height
// changes.
fn rebalance(links: &mut LinksMut<'_>, from: u16)
    requires { Ready (lists_of links.old) from }
    ensures same { IsSame links.old links.new }
    ensures balanced { (w : Ready (lists_of links.old) from) →
        Whole (lists_of links.new) (length links.old.left.now) (climb w.k (bal w.l from w.r)) }
{
    let mut at = from;
    // A walk along links, and no count.
    while at < NONE {
        let old = links.height[at as usize];
        let top = settle(links, at) as usize;
        if links.height[top] == old {
            return;
        }
        at = links.parent[top];
    }
}

// The climb from a node that has just been hung and has no children: its height is 1, and the way up begins at its
// parent.
fn rise(links: &mut LinksMut<'_>, new: u16)
    requires ready { Ready (lists_of links.old) new }
    requires childless { (get_or links.old.left.now new 0 ≡ none) × (get_or links.old.right.now new 0 ≡ none) }
    ensures same { IsSame links.old links.new }
    ensures balanced { (w : Ready (lists_of links.old) new) →
        Whole (lists_of links.new) (length links.old.left.now) (climb w.k (bal w.l new w.r)) }
{
    let i = new as usize;
    links.height[i] = 1;
    let parent = links.parent[i];
    if parent != NONE {
        rebalance(links, parent);
    }
}

// Puts the node `new` in at the place that its name's spot is, and climbs from it.
fn put_into(links: &mut LinksMut<'_>, place: Place, new: u16)
    requires { Placed (lists_of links.old) place new }
    ensures same { IsSame links.old links.new }
    ensures grown { (w : Placed (lists_of links.old) place new) → Whole (lists_of links.new)
        (length links.old.left.now) (ins (λ i. is_less (w.by i)) new w.arena.t) }
{
    attach(links, place, new);
    rise(links, new);
}

// The same in columns that are no struct: callers lend the first places of longer columns, and only of a slice that is
// lent by itself does a proof know what becomes of the rest.
pub fn put_in(
    root: &mut u16,
    left: &mut [u16],
    right: &mut [u16],
    parent: &mut [u16],
    height: &mut [u8],
    place: Place,
    new: u16,
)
    requires { Placed (lists root.old left.old right.old parent.old height.old) place new }
    ensures { let before = lists root.old left.old right.old parent.old height.old in
        let after = lists root.new left.new right.new parent.new height.new in
        ((w : Placed before place new) →
        Whole after (length left.old) (ins (λ i. is_less (w.by i)) new w.arena.t)) }
{
    let mut links = LinksMut {
        root: *root,
        left,
        right,
        parent,
        height,
    };
    put_into(&mut links, place, new);
    *root = links.root;
}
