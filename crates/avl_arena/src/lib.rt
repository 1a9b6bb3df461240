// The arena check: whether columns that someone lends hold one ordered, balanced tree with true parents and heights.
#![tactic(auto)]

ghost use Rattle.std.specs.Prelude.{◌≡◌, ◌||◌, ◌+◌, ◌<◌, ◌≤◌, max, length, leb};
ghost use Rattle.avl_model.specs.Lent.{lists_in, names_of};
ghost use Rattle.avl_model.specs.Names.{by_name, is_less};
ghost use Rattle.avl_model.specs.Seek.{tree_at};
ghost use Rattle.avl_arena.specs.Test.{places, every, inside, between, cell_ok, ok_tree, whole_tree, holds_tree};
ghost use Rattle.avl_arena.specs.inner.Seeing.{NamedAt, Lent, Judged};

use avl_model::{Links, NONE, Names, node_name};
use layout_name::compare;

// What looking through a subtree finds: its root, its height and its number of nodes.
#[derive(Clone, Copy)]
pub struct Seen {
    pub top: u16,
    pub high: u8,
    pub size: usize,
}

// Where a subtree hangs: by name between the nodes lo and hi, and below the node up. NONE is no bound, as every number
// that is no index: the definition of the test reads them so, and an Option would have to be read back to it.
#[derive(Clone, Copy)]
pub struct Gap {
    pub lo: u16,
    pub hi: u16,
    pub up: u16,
}

// The name of i is less than that of j.
// (`NamedAt`, here and below, is asked and no type holds it: C's columns may say anything until `are_inside` has
// tested them.)
fn is_less(names: Names<'_>, i: u16, j: u16) -> bool
    requires { NamedAt (names_of names) i × (j < length names.start.now) }
    ensures { result ≡ is_less (by_name (names_of names.entry) i j) }
{
    compare(node_name(names, i), node_name(names, j)).is_lt()
}

// i comes after lo by name, if that is a node.
fn is_after(names: Names<'_>, lo: u16, i: u16) -> bool
    requires { NamedAt (names_of names) i }
    ensures { let held = names_of names.entry in
        result ≡ (leb (length names.entry.start.now) lo || is_less (by_name held lo i)) }
{
    names.start.len() <= (lo as usize) || is_less(names, lo, i)
}

// i comes before hi by name, if that is a node.
// (Not one function with `is_after`: the bound is the first of the two names there, and the second here.)
fn is_before(names: Names<'_>, hi: u16, i: u16) -> bool
    requires { NamedAt (names_of names) i }
    ensures { let held = names_of names.entry in
        result ≡ (leb (length names.entry.start.now) hi || is_less (by_name held i hi)) }
{
    names.start.len() <= (hi as usize) || is_less(names, i, hi)
}

// i comes after lo and before hi by name.
#[tactic(auto, unfolding(crate::specs::Test::between))]
fn is_between(names: Names<'_>, gap: Gap, i: u16) -> bool
    requires { NamedAt (names_of names) i }
    ensures { result ≡ between (names_of names.entry) (length names.entry.start.now) gap.lo gap.hi i }
{
    is_after(names, gap.lo, i) && is_before(names, gap.hi, i)
}

// The links, the parent and the height of `at`, below `up` and over the subtrees l and r; and its balance.
#[tactic(auto, unfolding(crate::specs::Test::cell_ok))]
fn is_cell(links: Links<'_>, at: u16, up: u16, l: Seen, r: Seen) -> bool
    requires { (at < length links.left.now) × (at < length links.right.now) × (at < length links.parent.now)
        × (at < length links.height.now) × (l.high ≤ 22) × (r.high ≤ 22) }
    ensures { result ≡ cell_ok (lists_in links.entry) at up l.top r.top l.high r.high }
{
    let i = at as usize;
    links.left[i] == l.top
        && links.right[i] == r.top
        && links.parent[i] == up
        && links.height[i] == l.high.max(r.high) + 1
        && l.high <= r.high + 1
        && r.high <= l.high + 1
}

// What is seen of the node `at`, over the subtrees l and r.
fn join(at: u16, l: Seen, r: Seen) -> Seen
    requires { (l.high ≤ 22) × (r.high ≤ 22) × (l.size < 4194304) × (r.size < 4194304) }
    ensures { (result.top ≡ at) × (result.high ≡ max l.high r.high + 1) × (result.size ≡ l.size + r.size + 1) }
{
    Seen {
        top: at,
        high: l.high.max(r.high) + 1,
        size: l.size + r.size + 1,
    }
}

// What is seen where there is no node.
fn see_none() -> Seen
    ensures { (result.top ≡ 65535) × (result.high ≡ 0) × (result.size ≡ 0) }
{
    Seen {
        top: NONE,
        high: 0,
        size: 0,
    }
}

// Looks through the subtree of `at`, which hangs in the gap g, to a depth: None where something is wrong.
// (Columns and names by reference: as values they would be copied at each node.)
fn look(links: &Links<'_>, names: &Names<'_>, g: Gap, at: u16, d: usize) -> Option<Seen>
    requires { Lent (lists_in links.now) (names_of names.now) (length links.now.left.now) × (d ≤ 22) }
    ensures { let held = links.now in let tree = tree_at d held.left.now held.right.now at in
        Judged result (ok_tree (lists_in held) (names_of names.now) (length held.left.now) g.lo g.hi g.up tree) tree }
{
    let i = at as usize;
    if d == 0 || links.left.len() <= i {
        return Some(see_none());
    }
    if !is_between(*names, g, at) {
        return None;
    }
    let below = Gap {
        lo: g.lo,
        hi: at,
        up: at,
    };
    let l = look(links, names, below, links.left[i], d - 1)?;
    let above = Gap {
        lo: at,
        hi: g.hi,
        up: at,
    };
    let r = look(links, names, above, links.right[i], d - 1)?;
    if is_cell(*links, at, g.up, l, r) {
        Some(join(at, l, r))
    } else {
        None
    }
}

// The columns, of equally many places, hold one tree of all the places.
#[tactic(auto, unfolding(crate::specs::Test::whole_tree))]
fn is_whole(links: Links<'_>, names: Names<'_>) -> bool
    requires { Lent (lists_in links) (names_of names) (length links.left.now) }
    ensures { let held = links.entry in
        result ≡ whole_tree (lists_in held) (names_of names.entry) (length held.left.now) }
{
    let everything = Gap {
        lo: NONE,
        hi: NONE,
        up: NONE,
    };
    match look(&links, &names, everything, links.root, 22) {
        Some(seen) => seen.top == links.root && seen.size == links.left.len(),
        None => false,
    }
}

// The name of each node lies inside the lent bytes.
fn are_inside(names: Names<'_>) -> bool
    requires { length names.len.now ≡ length names.start.now }
    ensures { result ≡ every (inside (names_of names.entry)) (length names.entry.start.now) }
{
    for (i, &start) in names.start.iter().enumerate() {
        if names.bytes.len() < (start as usize) + (names.len[i] as usize) {
            return false;
        }
    }
    true
}

// Each column has n places.
// (A test for each column: their elements are of different types, so there is no loop over them.)
#[tactic(auto, unfolding(crate::specs::Test::places))]
fn have_places(links: Links<'_>, names: Names<'_>, n: usize) -> bool
    ensures { let held = names.entry in
        result ≡ places (lists_in links.entry) held.start.now held.len.now n }
{
    n <= links.left.len()
        && n <= links.right.len()
        && n <= links.parent.len()
        && n <= links.height.len()
        && n <= names.start.len()
        && n <= names.len.len()
}

// The first `count` places of the columns hold one ordered, balanced tree of as many nodes, with true parents and
// heights and each name inside the bytes.
pub fn is_tree(links: Links<'_>, names: Names<'_>, count: u16) -> bool
    ensures { result ≡ holds_tree (lists_in links.entry) (names_of names.entry) count }
{
    let n = count as usize;
    if !have_places(links, names, n) {
        return false;
    }
    let named = Names {
        bytes: names.bytes,
        start: &names.start[..n],
        len: &names.len[..n],
    };
    let linked = Links {
        root: links.root,
        left: &links.left[..n],
        right: &links.right[..n],
        parent: &links.parent[..n],
        height: &links.height[..n],
    };
    are_inside(named) && is_whole(linked, named)
}
