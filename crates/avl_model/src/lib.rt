// The words that the code of the tree and its definitions share: the columns that hold a tree, lent as structs of
// slices, and what a search finds. The definitions are in specs/, their laws in proofs/.
#![tactic(auto)]

ghost use Rattle.std.specs.Prelude.{◌≡◌, ◌+◌, ◌≤◌, ◌<◌, ℕ, length, get_or, take, drop};
ghost use Rattle.avl_model.specs.Lent.{names_of};
ghost use Rattle.avl_model.specs.Names.{name_at};
ghost use Rattle.avl_model.specs.inner.Names.{Inside};

// The number that stands for no node.
// (In the columns that C lends: they hold numbers of nodes, and no Option.)
pub const NONE: u16 = 65535;

// Which way a node leans by more than one: left is -1, neither side is 0, right is 1.
#[derive(Clone, Copy, Debug, PartialEq, Eq)]
pub enum Direction {
    Left = -1,
    Leaf = 0,
    Right = 1,
}

// Where a subtree hangs: at the root, or left or right of a node.
#[derive(Clone, Copy, Debug, PartialEq, Eq)]
pub enum Place {
    Root,
    Left(u16),
    Right(u16),
}

// What looking for a name finds: the node that has it, or the place where it would hang. No Result: neither of the two
// is a failure, since a lookup wants the node and an insertion the place.
#[derive(Clone, Copy, Debug, PartialEq, Eq)]
pub enum Spot {
    Same(u16),
    Free(Place),
}

// The names of nodes: the name of node i is the part of `bytes` that starts at start[i] and has len[i] bytes. The
// columns are slices, since C lends them.
#[derive(Clone, Copy)]
pub struct Names<'a> {
    pub bytes: &'a [u8],
    pub start: &'a [u32],
    pub len: &'a [u32],
}

// The name of a node.
// (No method: `Names` is exported by the front door, where nothing asks anything of its caller.)
pub fn node_name<'a>(names: Names<'a>, node: u16) -> &'a [u8]
    requires { Inside (names_of names) node }
    ensures named { result.now ≡ name_at (names_of names.entry) node }
    ensures in_range { (i : ℕ) → get_or result.now i 0 < 256 }
{
    let i = node as usize;
    part(names.bytes, names.start[i], names.len[i])
}

// The part of `bytes` that starts at a place and has a length.
fn part(bytes: &[u8], start: u32, len: u32) -> &[u8]
    requires { start + len ≤ length bytes.now }
    ensures part { result.now ≡ take len (drop start bytes.now) }
    ensures in_range { (i : ℕ) → get_or result.now i 0 < 256 }
{
    let from = start as usize;
    &bytes[from..from + (len as usize)]
}

// The root of a tree and the columns with the children of each node: the number of a node, or NONE. What the columns
// hold for numbers that are not in the tree is nothing to anyone.
// (The columns are slices, since C lends them.)
#[derive(Clone, Copy)]
pub struct Branches<'a> {
    pub root: u16,
    pub left: &'a [u16],
    pub right: &'a [u16],
}

// The same with the parent of each node and the height of its subtree.
#[derive(Clone, Copy)]
pub struct Links<'a> {
    pub root: u16,
    pub left: &'a [u16],
    pub right: &'a [u16],
    pub parent: &'a [u16],
    pub height: &'a [u8],
}

// A tree that is being changed.
#[derive(Drop)]
pub struct LinksMut<'a> {
    pub root: u16,
    pub left: &'a mut [u16],
    pub right: &'a mut [u16],
    pub parent: &'a mut [u16],
    pub height: &'a mut [u8],
}

impl<'a> LinksMut<'a> {
    // The children of its nodes, to be read.
    pub fn branches(&self) -> Branches<'_>
        ensures root { result.root ≡ self.now.root }
        ensures left { result.left.now ≡ self.now.left.now }
        ensures right { result.right.now ≡ self.now.right.now }
    {
        Branches {
            root: self.root,
            left: &*self.left,
            right: &*self.right,
        }
    }
}
