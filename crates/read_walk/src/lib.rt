// A table is walked: preorder, left before right, into a lent list of offsets, with a lent scratch for the stack.
#![tactic(auto)]

ghost use Rattle.std.specs.Prelude.{◌≡◌, [], ◌∷◌, ◌<◌, length, Err};
ghost use Rattle.units.specs.Told.{number_of};
ghost use Rattle.read_entry.specs.Entry.{read_at};
ghost use Rattle.read_entry.specs.Links.{walk_absent};
ghost use Rattle.read_walk.specs.Walk.{walk_from, told, walk_answer, list_after, scratch_after};
ghost use Rattle.read_walk.specs.inner.Run.{Pushed, Runs};

use read_entry::{ReadError, Table};
use scratch::{clear, clear_from};
use units::{Link, Offset};

// Why a walk lists nothing.
#[derive(Clone, Copy, Debug, PartialEq, Eq)]
pub enum WalkError {
    // 6: the scratch is not longer than the list.
    Room,
    // 23, 24: an offset on the way cannot be read.
    Read(ReadError),
    // 26: an entry is read when the list is full.
    WalkFull,
}

impl WalkError {
    // The refusal's number.
    pub fn number(self) -> u32
        ensures { result ≡ number_of (told (Err self)) }
    {
        match self {
            WalkError::Room => 6,
            WalkError::Read(e) => e.number(),
            WalkError::WalkFull => 26,
        }
    }
}

impl From<ReadError> for WalkError {
    ghost use Rattle.read_walk.specs.declared.WalkError.TheVariants.{Read};

    ghost from_gives = { λ e r. r ≡ Read e };

    fn from(e: ReadError) -> WalkError {
        WalkError::Read(e)
    }
}

// A link's offset on the stack: 0 and 0xffff are absent. The answer is the stack's new height.
fn push_link(scratch: &mut [u32], top: usize, l: Link) -> usize
    requires { top < length scratch.old }
    ensures { Pushed walk_absent l.0 scratch.old top scratch.new result }
{
    let n = l.number();
    if n == 0 || n == 0xffff {
        return top;
    }
    scratch[top] = l.offset().number();
    top + 1
}

// The walk itself: how many offsets it lists. What it leaves in the list past them, and in the scratch, is cleared by
// the caller. (The stack is a lent slice and its height: there is no heap.)
// (That the scratch is longer than the list is asked, here and in `strict`: the two are lent apart, and `walk` tests
// it once.)
fn run(table: Table<'_>, list: &mut [u32], scratch: &mut [u32]) -> Result<usize, WalkError>
    requires { length list.old < length scratch.old }
    ensures { let t = table.entry in
        Runs (walk_from walk_absent (read_at t.window.now t.first t.region) (length list.old) (0 ∷ [])) result
        list.new }
{
    scratch[0] = 0;
    let mut top: usize = 1;
    let mut n: usize = 0;
    // No index is counted: it goes on until the stack is empty.
    while 0 < top {
        top -= 1;
        let o = scratch[top];
        if let Some(x) = table.read_at(Offset::new(o))? {
            if list.len() <= n {
                return Err(WalkError::WalkFull);
            }
            list[n] = o;
            n += 1;
            top = push_link(scratch, top, x.header.right);
            top = push_link(scratch, top, x.header.left);
        }
    }
    Ok(n)
}

// The walk of a table: the offsets of its entries in the list, zeros past them, and their number; or a refusal, and a
// list of zeros. The scratch is all zero after it. Where the scratch is not longer than the list, all is unchanged.
// The table is read in its own part of the window, which starts with the table.
pub fn walk(table: Table<'_>, list: &mut [u32], scratch: &mut [u32]) -> Result<usize, WalkError>
    ensures answer { let t = table.entry in
        told result ≡ walk_answer t.window.now t.first t.region (length list.old) (length scratch.old) }
    ensures list { let t = table.entry in
        list.new ≡ list_after t.window.now t.first t.region list.old (length scratch.old) }
    ensures scratch { scratch.new ≡ scratch_after (length list.old) scratch.old }
{
    if scratch.len() <= list.len() {
        return Err(WalkError::Room);
    }
    if table.region.size == 0 {
        clear(list);
        clear(scratch);
        return Ok(0);
    }
    let walked = run(table.narrowed(), list, scratch);
    let n = walked.unwrap_or(0);
    clear_from(list, n);
    clear(scratch);
    walked
}
