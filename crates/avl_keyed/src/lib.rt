// The search for a name's place by keys: names are compared only where the keys of their first four bytes are equal.
#![tactic(auto)]

ghost use Rattle.std.specs.Prelude.{◌≡◌, ◌+◌, ◌*◌, ◌<◌, get_or};
ghost use Rattle.units.specs.Told.{pick};
ghost use Rattle.layout_name.specs.inner.Order.{raised_copy};
ghost use Rattle.avl_model.specs.declared.Place.TheVariants.{Root};
ghost use Rattle.avl_model.specs.declared.Spot.TheVariants.{Free};
ghost use Rattle.avl_model.specs.Lent.{names_of};
ghost use Rattle.avl_model.specs.Names.{to_name};
ghost use Rattle.avl_model.specs.Seek.{spot_in};
ghost use Rattle.avl_keyed.specs.inner.Key.{key_for, KeySought, place_from};

use avl_model::{Branches, NONE, Names, Place, Spot, node_name};
use layout_name::{compare, raise};
use std::cmp::Ordering;

// The byte of a name at a place, raised; 0 past its end.
#[tactic(auto, using(layout_name::proofs::Raised::copy_at, layout_name::proofs::Raised::copy_past))]
fn raised_at(name: &[u8], i: usize) -> u32
    ensures { (result ≡ get_or (raised_copy name.now) i 0) × (result < 256) }
{
    match name.get(i) {
        Some(&byte) => u32::from(raise(byte)),
        None => 0,
    }
}

// Four bytes as one number, the first one highest.
fn join(a: u32, b: u32, c: u32, d: u32) -> u32
    requires { (a < 256) × (b < 256) × (c < 256) × (d < 256) }
    ensures { result ≡ 16777216 * a + 65536 * b + 256 * c + d }
{
    16777216 * a + 65536 * b + 256 * c + d
}

// The key of a name, looked for byte by byte.
#[tactic(auto, unfolding(crate::specs::inner::Key::key_for))]
fn key_by_bytes(name: &[u8]) -> u32
    ensures { result ≡ key_for name.now }
{
    join(
        raised_at(name, 0),
        raised_at(name, 1),
        raised_at(name, 2),
        raised_at(name, 3),
    )
}

// The key of a name. Of a name that is known to have four bytes they are read with no test of each.
pub fn key_of(name: &[u8]) -> u32
    ensures { result ≡ key_for name.now }
{
    if 4 <= name.len() {
        return key_by_bytes(name);
    }
    key_by_bytes(name)
}

// One of two children, by value.
fn choose(less: bool, l: u16, r: u16) -> u16
    ensures { result ≡ pick less l r }
{
    if less { l } else { r }
}

// The place below the last node that was looked at.
// (The node above and the side are two numbers until the search has ended: made a `Place` at each node, as in
// `avl_insert`, the child would be chosen by a branch.)
fn place_below(above: u16, less: bool) -> Place
    ensures { result ≡ place_from above less }
{
    if above == NONE {
        return Place::Root;
    }
    if less {
        Place::Left(above)
    } else {
        Place::Right(above)
    }
}

// Where a name, of which k is the key, stands or would hang. What a node says is read
// before it is tested, so that the child is chosen without a branch where the keys differ.
pub fn seek(branches: Branches<'_>, key: &[u32], names: Names<'_>, name: &[u8], k: u32) -> Spot
    requires key_sought { KeySought branches.left.now branches.right.now key.now branches.root (names_of names) }
    requires key_is { k ≡ key_for name.now }
    ensures { let b = branches.entry in let names_held = names_of names.entry in
        (w : KeySought b.left.now b.right.now key.now b.root names_held) →
        result ≡ spot_in (to_name names_held name.now) w.linked.t Root }
{
    let mut at = branches.root;
    let mut above = NONE;
    let mut less = false;
    // A walk along links, and no count.
    while at < NONE {
        let i = at as usize;
        let q = key[i];
        let l = branches.left[i];
        let r = branches.right[i];
        above = at;
        if k == q {
            match compare(name, node_name(names, at)) {
                Ordering::Equal => return Spot::Same(at),
                Ordering::Less => {
                    less = true;
                    at = l;
                }
                Ordering::Greater => {
                    less = false;
                    at = r;
                }
            }
        } else {
            // For the proof alone: `node_name` ensures that a name is bytes, by which the keys tell the order.
            let _other = node_name(names, at);
            less = k < q;
            at = choose(less, l, r);
        }
    }
    Spot::Free(place_below(above, less))
}
