// Names of entries: their order, and the raised copy that insertion compares with.
#![tactic(auto)]

ghost use Rattle.std.specs.Prelude.{◌≡◌, ℕ, ◌&&◌, ◌+◌, ◌<◌, ◌≤◌, eqb, length, drop, get_or};
ghost use Rattle.layout_name.specs.Order.{raised, name_order};
ghost use Rattle.layout_name.specs.inner.Order.{byte_order, raised_copy};

use std::cmp::Ordering;

// A byte with a to z raised to A to Z.
#[tactic(auto, using(crate::proofs::Keys::raises))]
pub fn raise(b: u8) -> u8
    ensures { result ≡ raised b }
{
    b.to_ascii_uppercase()
}

// The order of two bytes, raised.
#[tactic(auto, unfolding(crate::specs::inner::Order::byte_order), using(crate::proofs::Keys::number_cmp))]
pub fn byte_order(p: u8, q: u8) -> Ordering
    ensures { result ≡ byte_order p q }
{
    raise(p).cmp(&raise(q))
}

// Four bytes of two names, from a place on, are the same as they stand. There is no branch between them, so that
// they are compared at once. (Two slices of four bytes, compared by `==`, take a call.)
fn same_four(a: &[u8], b: &[u8], at: usize) -> bool
    requires { (at + 4 ≤ length a.now) × (at + 4 ≤ length b.now) }
    ensures { result ≡ ((eqb (get_or a.now at 0) (get_or b.now at 0) && eqb (get_or a.now (at + 1) 0)
        (get_or b.now (at + 1) 0)) && eqb (get_or a.now (at + 2) 0) (get_or b.now (at + 2) 0)) && eqb
        (get_or a.now (at + 3) 0) (get_or b.now (at + 3) 0) }
{
    (a[at] == b[at])
        & (a[at + 1] == b[at + 1])
        & (a[at + 2] == b[at + 2])
        & (a[at + 3] == b[at + 3])
}

// How many bytes are the same at the front of two names, counted by fours: what is left of the names decides.
fn same_front(a: &[u8], b: &[u8]) -> usize
    ensures { (result ≤ length a.now) × (result ≤ length b.now)
        × (name_order a.now b.now ≡ name_order (drop result a.now) (drop result b.now)) }
{
    let fours = a.len().min(b.len()) / 4;
    for i in 0..fours {
        if !same_four(a, b, 4 * i) {
            return 4 * i;
        }
    }
    4 * fours
}

// The order of two names, the first of which can be had raised at each place. Only bytes that differ as they stand are
// raised, and only those that differ raised decide; a proper prefix is less.
fn compare_by<F: Fn(usize) -> u8>(a: &[u8], b: &[u8], raised_at: F) -> Ordering
    requires ready { (i : ℕ) → i < length a.now → F.pre raised_at i }
    requires raises { (i r : ℕ) → i < length a.now → F.post raised_at i r → r ≡ raised (get_or a.now i 0) }
    ensures { result ≡ name_order a.now b.now }
{
    let both = a.len().min(b.len());
    for i in same_front(a, b)..both {
        if a[i] != b[i] {
            let order = raised_at(i).cmp(&raise(b[i]));
            if order.is_ne() {
                return order;
            }
        }
    }
    a.len().cmp(&b.len())
}

// The order of two names: byte by byte, raised; a proper prefix is less.
pub fn compare(a: &[u8], b: &[u8]) -> Ordering
    ensures { result ≡ name_order a.now b.now }
{
    compare_by(
        a,
        b,
        |i: usize| -> u8
            requires { i < length a.now }
        { raise(a[i]) },
    )
}

// The name raised, in an array of 255 bytes that are zero past its end.
// (An array with zeros past the name: there is no heap. That the name has at most 255 bytes is asked, as a name of
// any length is a slice.)
pub fn raise_name(name: &[u8]) -> [u8; 255]
    requires { length name.now ≤ 255 }
    ensures { result ≡ raised_copy name.now }
{
    let mut copy = [0; 255];
    for (i, b) in name.iter().enumerate() {
        copy[i] = raise(*b);
    }
    copy
}

// The order of a name, whose raised copy is at hand, to another.
pub fn compare_raised(copy: &[u8; 255], name: &[u8], other: &[u8]) -> Ordering
    requires { (length name.now ≤ 255) × (copy.now ≡ raised_copy name.now) }
    ensures { result ≡ name_order name.now other.now }
{
    compare_by(
        name,
        other,
        |i: usize| -> u8
            requires { i < 255 }
        { copy[i] },
    )
}
