// The entries of a tree that columns hold, listed in preorder.
#![tactic(auto)]

ghost use Rattle.std.specs.Prelude.{◌≡◌, ◌++◌, ◌≤◌, length, drop};
ghost use Rattle.avl_model.specs.Tree.{Tree};
ghost use Rattle.avl_model.specs.Order.{order};
ghost use Rattle.dirtab_held.specs.inner.Held.{Hung};

use avl_model::Branches;
use avl_order::preorder;

// The numbers of the tree in the first `count` places of the columns, in preorder, into the first places of `list`;
// the rest of it stays.
#[tactic(auto, using(crate::proofs::Rooted::listed_asks))]
pub fn list_held(branches: Branches<'_>, count: u16, list: &mut [u16])
    requires { ((t : Tree) × Hung branches.left.now branches.right.now branches.root count t)
        × (count ≤ length list.old) }
    ensures { let b = branches.entry in
        ((t : Tree) → Hung b.left.now b.right.now b.root count t → list.new ≡ order t ++ drop count list.old) }
{
    let n = count as usize;
    let held = Branches {
        root: branches.root,
        left: &branches.left[..n],
        right: &branches.right[..n],
    };
    preorder(held, list);
}
