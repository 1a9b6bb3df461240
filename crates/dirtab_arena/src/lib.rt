// A table being built: entries and the tree over them, in columns that the caller lends. Node i of the tree is entry i.
#![tactic(auto)]

ghost use Rattle.std.specs.Prelude.{◌≡◌, ◌<◌, ℕ};
ghost use Rattle.avl_model.specs.Lent as lent;
ghost use Rattle.dirtab_entry.specs.Entry.{check_of};
ghost use Rattle.dirtab_entry.specs.Entries.{HasPlace, given_by};
ghost use Rattle.avl_arena.specs.Test.{every};
ghost use Rattle.dirtab_arena.specs.Arena.{lists_of, names_of, given_at, is_given, is_arena};
ghost use Rattle.dirtab_arena.specs.Lent.{columns_in, columns_of, arena_of};

use avl_arena::is_tree;
use avl_model::{Branches, Links, NONE, Names};
use dirtab_entry::{Entries, check_entry, nth_entry};

// The tree that the columns hold: its root, 65,535 for none, as C has it, and how many nodes it has. They are the
// numbers below count.
#[derive(Clone, Copy)]
pub struct Held {
    pub root: u16,
    pub count: u16,
}

impl Held {
    // An arena that holds nothing: the columns may hold anything.
    pub fn empty() -> Held
        ensures { (result.root ≡ 65535) × (result.count ≡ 0) }
    {
        Held {
            root: NONE,
            count: 0,
        }
    }
}

// The columns, by node: links, parent and height of the tree; the name's place and length, the size and the kind of
// the entry. They are slices, since C lends them.
#[derive(Clone, Copy)]
pub struct Columns<'a> {
    pub left: &'a [u16],
    pub right: &'a [u16],
    pub parent: &'a [u16],
    pub height: &'a [u8],
    pub start: &'a [u32],
    pub len: &'a [u32],
    pub size: &'a [u32],
    pub kind: &'a [u8],
}

// The columns of a table that is being changed.
#[derive(Drop)]
pub struct ColumnsMut<'a> {
    pub left: &'a mut [u16],
    pub right: &'a mut [u16],
    pub parent: &'a mut [u16],
    pub height: &'a mut [u8],
    pub start: &'a mut [u32],
    pub len: &'a mut [u32],
    pub size: &'a mut [u32],
    pub kind: &'a mut [u8],
}

impl ColumnsMut<'_> {
    // The columns, to be read.
    pub fn shared(&self) -> Columns<'_>
        ensures { columns_in result ≡ columns_of self.now }
    {
        Columns {
            left: &*self.left,
            right: &*self.right,
            parent: &*self.parent,
            height: &*self.height,
            start: &*self.start,
            len: &*self.len,
            size: &*self.size,
            kind: &*self.kind,
        }
    }
}

// A table being built: the held tree, the columns and the bytes lent for names.
#[derive(Clone, Copy)]
pub struct Arena<'a> {
    pub tree: Held,
    pub columns: Columns<'a>,
    pub names: &'a [u8],
}

impl<'a> Arena<'a> {
    // The held tree.
    pub fn links(self) -> Links<'a>
        ensures { lent.lists_in result ≡ lists_of (arena_of self.entry) }
    {
        Links {
            root: self.tree.root,
            left: self.columns.left,
            right: self.columns.right,
            parent: self.columns.parent,
            height: self.columns.height,
        }
    }

    // The held tree without its parents and heights.
    pub fn branches(self) -> Branches<'a>
        ensures root { result.root ≡ self.entry.tree.root }
        ensures left { result.left.now ≡ self.entry.columns.left.now }
        ensures right { result.right.now ≡ self.entry.columns.right.now }
    {
        let links = self.links();
        Branches {
            root: links.root,
            left: links.left,
            right: links.right,
        }
    }

    // The names of the entries.
    pub fn names(self) -> Names<'a>
        ensures { lent.names_of result ≡ names_of (arena_of self.entry) }
    {
        Names {
            bytes: self.names,
            start: self.columns.start,
            len: self.columns.len,
        }
    }

    // The entries.
    pub fn entries(self) -> Entries<'a>
        ensures names { lent.names_of result.names ≡ names_of (arena_of self.entry) }
        ensures size { result.size.now ≡ self.entry.columns.size.now }
        ensures kind { result.kind.now ≡ self.entry.columns.kind.now }
    {
        Entries {
            names: self.names(),
            size: self.columns.size,
            kind: self.columns.kind,
        }
    }
}

// Adding takes each of the first n entries.
fn are_taken(entries: Entries, n: usize) -> bool
    requires { (i : ℕ) → i < n → HasPlace entries i }
    ensures { result ≡ every (λ i. is_given (check_of entries.entry.names.bytes.now (given_by entries.entry i))) n }
{
    (0..n).all(|i| check_entry(entries.names.bytes, nth_entry(entries, i)).is_ok())
}

// The arena check (else 12): the columns hold one ordered, balanced tree, parents and heights true, of entries that
// adding takes.
#[tactic(auto, unfolding(crate::specs::Arena::is_arena, crate::specs::Arena::is_taken))]
pub fn is_arena(arena: Arena) -> bool
    ensures { result ≡ is_arena (arena_of arena.entry) }
{
    let n = arena.tree.count as usize;
    n <= arena.columns.size.len()
        && n <= arena.columns.kind.len()
        && is_tree(arena.links(), arena.names(), arena.tree.count)
        && are_taken(arena.entries(), n)
}
