// Rotations of a tree that lent columns hold. A rotation to the other side is the same function over the mirrored
// links: the columns left and right exchanged.
#![tactic(auto)]

ghost use Rattle.std.specs.Prelude.{◌≡◌, ℕ, ◌<◌, max, length, get_or, set};
ghost use Rattle.avl_model.specs.Tree.{node, turn_left, bal};
ghost use Rattle.avl_model.specs.Lent.{IsSame, lists_of};
ghost use Rattle.avl_model.specs.inner.Held.{Heavy, Ready, Up};
ghost use Rattle.avl_model.specs.inner.Lists.{risen, tilt_of, place_of, put_root, put_left, put_right};
ghost use Rattle.avl_model.specs.inner.Lists.{l_rotated, mirrored, rl_rotated, risen3, Low, Three};

use avl_model::{Direction, LinksMut, Place};

// The height that is held for a node, and 0 for none.
fn height_of(links: &LinksMut<'_>, at: u16) -> u8
    ensures { result ≡ get_or links.now.height.now at 0 }
{
    links.height.get(at as usize).copied().unwrap_or(0)
}

// The height of a node, from those of its children.
fn update_height(links: &mut LinksMut<'_>, at: u16)
    requires at_in_bounds { (at < length links.old.left.now) × (at < length links.old.right.now)
        × (at < length links.old.height.now) }
    requires low { Low 140 links.old.height.now }
    ensures same { IsSame links.old links.new }
    ensures root { links.new.root ≡ links.old.root }
    ensures left { links.new.left.now ≡ links.old.left.now }
    ensures right { links.new.right.now ≡ links.old.right.now }
    ensures parent { links.new.parent.now ≡ links.old.parent.now }
    ensures height { let old = links.old in
        links.new.height.now ≡ risen old.left.now old.right.now old.height.now at }
{
    let i = at as usize;
    let l = links.left[i];
    let r = links.right[i];
    let high = height_of(links, l).max(height_of(links, r));
    links.height[i] = high + 1;
}

// The heights of three nodes, one after the other.
// (`Low` and `Three` are named facts and no invariant of `LinksMut`, whose columns may hold anything when C lends
// them.)
fn update_heights(links: &mut LinksMut<'_>, i: u16, j: u16, k: u16)
    requires three { let old = links.old in
        Three (length old.left.now) (length old.right.now) (length old.height.now) i j k }
    requires low { Low 120 links.old.height.now }
    ensures same { IsSame links.old links.new }
    ensures root { links.new.root ≡ links.old.root }
    ensures left { links.new.left.now ≡ links.old.left.now }
    ensures right { links.new.right.now ≡ links.old.right.now }
    ensures parent { links.new.parent.now ≡ links.old.parent.now }
    ensures height { let old = links.old in
        links.new.height.now ≡ risen3 old.left.now old.right.now old.height.now i j k }
{
    update_height(links, i);
    update_height(links, j);
    update_height(links, k);
}

// To which side a node leans by more than one, whose children have these heights. Its balance is left height minus
// right height.
fn tilt(l: u8, r: u8) -> Direction
    ensures { result ≡ tilt_of l r }
{
    let balance = i32::from(l) - i32::from(r);
    if balance > 1 {
        Direction::Left
    } else if balance < -1 {
        Direction::Right
    } else {
        Direction::Leaf
    }
}

// The child of a node on one side is now `to`. With the column left it sets the left child, with the column right
// the right one.
fn set_child(side: &mut [u16], parent: &mut [u16], node: u16, to: u16)
    requires { node < length side.old }
    ensures side { side.new ≡ set side.old node to }
    ensures parent { parent.new ≡ set parent.old to node }
{
    side[node as usize] = to;
    let i = to as usize;
    if i < parent.len() {
        parent[i] = node;
    }
}

// Where the subtree of a node hangs.
fn place_of(links: &LinksMut<'_>, at: u16) -> Place
    requires { at < length links.now.parent.now }
    ensures { result ≡ place_of links.now.left.now links.now.parent.now at }
{
    let above = links.parent[at as usize];
    match links.left.get(above as usize) {
        None => Place::Root,
        Some(&child) => {
            if child == at {
                Place::Left(above)
            } else {
                Place::Right(above)
            }
        }
    }
}

// What hangs at a place is now `to`.
pub fn put(links: &mut LinksMut<'_>, place: Place, to: u16)
    ensures same { IsSame links.old links.new }
    ensures root { links.new.root ≡ put_root place to links.old.root }
    ensures left { links.new.left.now ≡ put_left place to links.old.left.now }
    ensures right { links.new.right.now ≡ put_right place to links.old.right.now }
    ensures parent { links.new.parent.now ≡ links.old.parent.now }
    ensures height { links.new.height.now ≡ links.old.height.now }
{
    match place {
        Place::Root => {
            links.root = to;
        }
        Place::Left(p) => {
            let i = p as usize;
            if i < links.left.len() {
                links.left[i] = to;
            }
        }
        Place::Right(p) => {
            let i = p as usize;
            if i < links.right.len() {
                links.right[i] = to;
            }
        }
    }
}

// b hangs where a hung, and has a's parent.
fn hang(links: &mut LinksMut<'_>, a: u16, b: u16)
    requires { (a < length links.old.parent.now) × (b < length links.old.parent.now) }
    ensures same { IsSame links.old links.new }
    ensures root { let old = links.old in
        links.new.root ≡ put_root (place_of old.left.now old.parent.now a) b old.root }
    ensures left { let old = links.old in
        links.new.left.now ≡ put_left (place_of old.left.now old.parent.now a) b old.left.now }
    ensures right { let old = links.old in
        links.new.right.now ≡ put_right (place_of old.left.now old.parent.now a) b old.right.now }
    ensures parent { let old = links.old in
        links.new.parent.now ≡ set old.parent.now b (get_or old.parent.now a 0) }
    ensures height { links.new.height.now ≡ links.old.height.now }
{
    let place = place_of(links, a);
    put(links, place, b);
    let above = links.parent[a as usize];
    links.parent[b as usize] = above;
}

// The right child b of a comes above it; c is b's right child. This and the next two are inlined, so that no struct of
// columns lies in memory: there it is read again after each store into a column, and insertion takes up to 10 % longer.
#[inline(always)]
fn l_rotate(links: &mut LinksMut<'_>, a: u16, b: u16, c: u16)
    requires three { let old = links.old in
        Three (length old.left.now) (length old.right.now) (length old.height.now) a b c }
    requires parent_len { length links.old.parent.now ≡ length links.old.left.now }
    requires low { Low 120 links.old.height.now }
    ensures same { IsSame links.old links.new }
    ensures rotated { lists_of links.new ≡ l_rotated (lists_of links.old) a b c }
{
    hang(links, a, b);
    let b_left = links.left[b as usize];
    set_child(links.right, links.parent, a, b_left);
    set_child(links.left, links.parent, b, a);
    update_heights(links, a, c, b);
}

// The left child c of a's right child b comes above both.
#[inline(always)]
fn rl_rotate(links: &mut LinksMut<'_>, a: u16, b: u16, c: u16)
    requires three { let old = links.old in
        Three (length old.left.now) (length old.right.now) (length old.height.now) a b c }
    requires parent_len { length links.old.parent.now ≡ length links.old.left.now }
    requires low { Low 120 links.old.height.now }
    ensures same { IsSame links.old links.new }
    ensures rotated { lists_of links.new ≡ rl_rotated (lists_of links.old) a b c }
{
    hang(links, a, c);
    let c_left = links.left[c as usize];
    set_child(links.right, links.parent, a, c_left);
    let c_right = links.right[c as usize];
    set_child(links.left, links.parent, b, c_right);
    set_child(links.right, links.parent, c, b);
    set_child(links.left, links.parent, c, a);
    update_heights(links, a, b, c);
}

// a's right child b is more than one higher than its left child: b, or b's left child where that is the higher one
// of b's children, comes up. The number of what came up.
#[inline(always)]
fn turn(links: &mut LinksMut<'_>, a: u16, b: u16) -> u16
    requires { Heavy (lists_of links.old) a b }
    ensures same { IsSame links.old links.new }
    ensures turned { (w : Heavy (lists_of links.old) a b) → Up (lists_of links.new) (length links.old.left.now)
        result (turn_left w.x a (node w.y b w.z)) w.k w.hh }
{
    let y = links.left[b as usize];
    let z = links.right[b as usize];
    if height_of(links, z) < height_of(links, y) {
        rl_rotate(links, a, b, y);
        y
    } else {
        l_rotate(links, a, b, z);
        b
    }
}

// The same with left and right exchanged: a's left child b is the higher one.
fn turn_back(links: &mut LinksMut<'_>, a: u16, b: u16) -> u16
    requires { Heavy (mirrored (lists_of links.old)) a b }
    ensures same { IsSame links.old links.new }
    ensures turned { (w : Heavy (mirrored (lists_of links.old)) a b) →
        Up (mirrored (lists_of links.new)) (length links.old.right.now)
        result (turn_left w.x a (node w.y b w.z)) w.k w.hh }
{
    let mut mirror = LinksMut {
        root: links.root,
        left: &mut *links.right,
        right: &mut *links.left,
        parent: &mut *links.parent,
        height: &mut *links.height,
    };
    let up = turn(&mut mirror, a, b);
    links.root = mirror.root;
    up
}

// The height of a node on the way up, and a rotation where it leans by more than one. The number of what then
// stands there.
pub fn settle(links: &mut LinksMut<'_>, at: u16) -> u16
    requires { Ready (lists_of links.old) at }
    ensures same { IsSame links.old links.new }
    ensures settled { (w : Ready (lists_of links.old) at) →
        Up (lists_of links.new) (length links.old.left.now) result (bal w.l at w.r) w.k w.hh }
{
    update_height(links, at);
    let l = links.left[at as usize];
    let r = links.right[at as usize];
    match tilt(height_of(links, l), height_of(links, r)) {
        Direction::Left => turn_back(links, at, l),
        Direction::Right => turn(links, at, r),
        Direction::Leaf => at,
    }
}
