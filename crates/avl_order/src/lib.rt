// The numbers of a tree's nodes in preorder.
#![tactic(auto)]

ghost use Rattle.std.specs.Prelude.{◌≡◌, ◌<◌, ◌≤◌, ◌++◌, length, drop};
ghost use Rattle.avl_model.specs.Laws.{size};
ghost use Rattle.avl_model.specs.Order.{order};
ghost use Rattle.avl_model.specs.inner.Order.{Listed};
ghost use Rattle.avl_order.specs.inner.Held.{held_by};

use avl_model::{Branches, NONE};

// How many places of the stack a link takes: none where it is to no node.
#[tactic(auto, using(crate::proofs::Stack::held_none, crate::proofs::Stack::held_one))]
fn count_node(link: u16) -> usize
    ensures { (result ≡ held_by link) × (result ≤ 1) }
{
    if link == NONE { 0 } else { 1 }
}

// The numbers of the tree below the root into the first places of `list`: a node, then what is left of it, then
// what is right. The stack has the roots of the subtrees still to be listed, the next one on top. The more lie
// below a subtree the lower it is, so that 23 places are enough for a tree that is 22 high. It is an array with a
// height, since the library has no heap.
pub fn preorder(branches: Branches<'_>, list: &mut [u16])
    requires { Listed branches.left.now branches.right.now branches.root (length list.old) }
    ensures { let b = branches.entry in (w : Listed b.left.now b.right.now b.root (length list.old)) →
        list.new ≡ order w.t ++ drop (size w.t) list.old }
{
    let mut stack = [0u16; 23];
    stack[0] = branches.root;
    let mut held = count_node(branches.root);
    for done in 0..list.len() {
        if held == 0 {
            return;
        }
        held -= 1;
        let node = stack[held];
        list[done] = node;
        let r = branches.right[node as usize];
        stack[held] = r;
        held += count_node(r);
        let l = branches.left[node as usize];
        stack[held] = l;
        held += count_node(l);
    }
}
