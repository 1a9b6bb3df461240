// The strict check: a walk that stops at the first fault. A map of units tells in one step whether an entry was
// listed before, and in a few whether it stands on one that was. A name is compared with two others: those of the
// nearest entry above it in whose left subtree it stands, and of the nearest in whose right. The others above follow
// (strict_rule/proofs/Nearest.antt).
#![tactic(auto)]

ghost use Rattle.std.specs.Prelude.{◌≡◌, List, ℕ, ◌+◌, ◌*◌, ◌/◌, ◌%◌, ◌^◌, ◌≤◌, ◌<◌, eqb, length, replicate};
ghost use Rattle.std.specs.Prelude.{MatchOption};
ghost use Rattle.std.proofs.Math.Option.{Option};
ghost use Rattle.units.specs.Told.{Told};
ghost use Rattle.read_entry.specs.Entry.{read_here, read_at};
ghost use Rattle.strict_map.specs.inner.Map.{Marked};
ghost use Rattle.strict_rule.specs.Strict.{end_of, name_by, placed, ordered, verdict_at, told, strict_answer};
ghost use Rattle.strict_rule.specs.Strict.{list_after, scratch_after};
ghost use Rattle.strict.specs.inner.Run.{bound_of, visit_of, Pushed, Entered, Mapped, Covers, Judged, Begins};
ghost use Rattle.strict.specs.inner.Run.{run_of, Runs};

use layout_node::Header;
use read_entry::{Placed, Table};
use scratch::{clear, clear_from};
use strict_rule::CheckError;
use units::{Link, Offset, Region};

// A place to visit, as the scratch that C lends holds it: one number of its link, 65,536 times the link of its nearest
// bound `under`, and 65,536 × 65,536 times that of its nearest bound `over`. 0xffff is no bound.
#[derive(Clone, Copy)]
struct PackedVisit(u64);

impl PackedVisit {
    fn link(self) -> Link
        ensures { result.0 ≡ self.0 % 65536 }
    {
        Link::new((self.0 % 65536) as u16)
    }

    // The entry than whose name the visit's must be less.
    // (Two methods, here and next: one with a number for the bound would be a switch.)
    fn under(self) -> Link
        ensures { result.0 ≡ self.0 / 65536 % 65536 }
    {
        Link::new((self.0 / 65536 % 65536) as u16)
    }

    // The entry than whose name the visit's must be greater.
    fn over(self) -> Link
        ensures { result.0 ≡ self.0 / 4294967296 % 65536 }
    {
        Link::new((self.0 / 4294967296 % 65536) as u16)
    }
}

// The name of the entry at place p of the window, empty where there is none or it is cut. Of fourteen bytes that are
// no entry, the last is 0 or 255. Where it is 0 there is no name either way, so that the others are looked at where it
// is 255 alone.
fn name_here(w: &[u8], p: usize) -> &[u8]
    requires { p < 2 ^ 45 }
    ensures { (o : ℕ) → result.now ≡ name_by w.now (read_here w.now p o) }
{
    if w.len() < p + 14 {
        return &w[..0];
    }
    let from = p + 14;
    let n = w[p + 13];
    if n == 255 {
        if layout_node::is_blank(&w[p..from]) {
            return &w[..0];
        }
    }
    let to = from + usize::from(n);
    if w.len() < to {
        return &w[..0];
    }
    &w[from..to]
}

// The name of the entry at an offset of a table that starts where the window does; empty where there is none.
fn name_at<'a>(table: Table<'a>, offset: Offset) -> &'a [u8]
    requires { Begins table.first table.region }
    ensures { let t = table.entry in
        result.now ≡ name_by t.window.now (read_at t.window.now t.first t.region offset.0) }
{
    let o = offset.number();
    if table.region.size <= o {
        return &table.window[..0];
    }
    name_here(table.window, o as usize)
}

// The name of the entry at a visit's bound, if it has that bound.
// (That the table starts with its window, `Begins`, and that the map covers it, `Covers`, are named facts: the table
// is read_entry's own, and a type for one that is narrowed would have to have its functions again.)
fn bound_name<'a>(table: Table<'a>, bound: Link) -> Option<&'a [u8]>
    requires { Begins table.first table.region }
    ensures { let t = table.entry in MatchOption result (bound.0 ≡ 65535)
        (λ name. (bound.0 ≡ 65535 → ⊥)
        × (name.now ≡ name_by t.window.now (read_at t.window.now t.first t.region (4 * bound.0)))) }
{
    if bound.number() == 0xffff {
        return None;
    }
    Some(name_at(table, bound.offset()))
}

// The name stands to those of the visit's bounds as the visit asks.
fn is_ordered(table: Table<'_>, visit: PackedVisit, name: &[u8]) -> bool
    requires { Begins table.first table.region }
    ensures { let t = table.entry in
        result ≡ ordered t.window.now (read_at t.window.now t.first t.region) (visit_of visit.0) name.now }
{
    if let Some(under) = bound_name(table, visit.under()) {
        if !layout_name::compare(name, under).is_lt() {
            return false;
        }
    }
    match bound_name(table, visit.over()) {
        Some(over) => layout_name::compare(over, name).is_lt(),
        None => true,
    }
}

// An entry at a link is inside the table, over no sector line, and over no entry that is marked on the map.
fn is_placed(table: Region, map: &[u8], link: Link, header: Header) -> bool
    requires { Covers table.size (length map.now) }
    ensures { (f : ℕ → Told (Option Placed)) (seen : List ℕ) → Mapped f seen map.now →
        result ≡ placed f table.size (4 * link.0) (end_of header (4 * link.0)) seen }
{
    let from = link.offset().number();
    let to = from + layout_node::entry_length(header.name_len);
    if table.size < to {
        return false;
    }
    if from / 2048 != (to - 1) / 2048 {
        return false;
    }
    strict_map::is_free(map, (from / 4) as usize, (to / 4) as usize)
}

// An entry at a link marked on the map.
fn mark_entry(map: &mut [u8], link: Link, header: Header)
    requires { end_of header (4 * link.0) / 4 ≤ length map.old }
    ensures { (Marked map.old link.0 (end_of header (4 * link.0) / 4) map.new)
        × (end_of header (4 * link.0) / 4 ≤ length map.old) }
{
    let from = link.offset().number();
    let to = from + layout_node::entry_length(header.name_len);
    strict_map::mark(map, (from / 4) as usize, (to / 4) as usize);
}

// The first fault of an entry that is read at a visit, with `left` places left in the list.
fn judge(
    table: Table<'_>,
    map: &[u8],
    left: usize,
    visit: PackedVisit,
    entry: Placed,
) -> Result<(), CheckError>
    requires begins { Begins table.first table.region }
    requires covers { Covers table.region.size (length map.now) × (visit.0 % 65536 < length map.now) }
    ensures { let t = table.entry in
        (seen : List ℕ) → Mapped (read_at t.window.now t.first t.region) seen map.now →
        Judged result (verdict_at t.window.now (read_at t.window.now t.first t.region) t.region.size seen
        (eqb left 0) (visit_of visit.0) entry) }
{
    let link = visit.link();
    let offset = link.offset();
    if strict_map::is_start(map, usize::from(link.number())) {
        return Err(CheckError::Shared(offset));
    }
    if left == 0 {
        return Err(CheckError::WalkFull);
    }
    if !is_placed(table.region, map, link, entry.header) {
        return Err(CheckError::BadPlace(offset));
    }
    if !is_ordered(table, visit, entry.name_in(table.window)) {
        return Err(CheckError::OutOfOrder(offset));
    }
    Ok(())
}

// A link on the stack with the rest of its number: 0 and 0xffff are absent. The answer is the stack's new height.
// (read_walk has the like over offsets; what is stored differs, an offset there and a visit in one number here.)
fn push_link(scratch: &mut [u64], top: usize, link: Link, rest: u64) -> usize
    requires { (top < length scratch.old) × (rest < 4294967296) }
    ensures { Pushed link.0 rest scratch.old top scratch.new result }
{
    let n = link.number();
    if n == 0 || n == 0xffff {
        return top;
    }
    scratch[top] = u64::from(n) + 65536 * rest;
    top + 1
}

// The children of the entry at a visit on the stack, the left one on top: its name must be less than the entry's,
// the right one's greater, and on the other side each has the bound that the entry has.
fn push_links(scratch: &mut [u64], top: usize, visit: PackedVisit, header: Header) -> usize
    requires { (top + 1 < length scratch.old) × (visit.0 % 65536 < 65535) }
    ensures { Entered (visit_of visit.0) header scratch.old top scratch.new result }
{
    let own = u64::from(visit.link().number());
    let under = u64::from(visit.under().number());
    let over = u64::from(visit.over().number());
    let t = push_link(scratch, top, header.right, under + 65536 * own);
    push_link(scratch, t, header.left, own + 65536 * over)
}

// The check itself, with a map of zeros that is long enough for the table: how many offsets it lists. What it leaves
// in the list past them, and in the scratch, is cleared by the caller. (The stack is a lent slice and its height: there
// is no heap.)
fn run(
    table: Table<'_>,
    list: &mut [u32],
    scratch: &mut [u64],
    map: &mut [u8],
) -> Result<usize, CheckError>
    requires begins { Begins table.first table.region × (length list.old < length scratch.old) }
    requires covers { Covers table.region.size (length map.old) × (map.old ≡ replicate (length map.old) 0) }
    ensures { let t = table.entry in
        Runs (run_of t.window.now t.first t.region (length list.old)) result list.new }
{
    // The root: link 0, and 0xffff twice.
    scratch[0] = 281474976645120;
    let mut top: usize = 1;
    let mut n: usize = 0;
    // No index is counted: it goes on until the stack is empty.
    while 0 < top {
        top -= 1;
        let visit = PackedVisit(scratch[top]);
        let link = visit.link();
        let offset = link.offset();
        if let Some(entry) = table.read_at(offset)? {
            judge(table, map, list.len() - n, visit, entry)?;
            list[n] = offset.number();
            n += 1;
            mark_entry(map, link, entry.header);
            top = push_links(scratch, top, visit, entry.header);
        }
    }
    Ok(n)
}

// The check with a map of N units.
fn run_on<const N: usize>(
    table: Table<'_>,
    list: &mut [u32],
    scratch: &mut [u64],
) -> Result<usize, CheckError>
    requires begins { Begins table.first table.region × (length list.old < length scratch.old) }
    requires covers { Covers table.region.size N }
    requires fits { N < 2 ^ 63 }
    ensures { let t = table.entry in
        Runs (run_of t.window.now t.first t.region (length list.old)) result list.new }
{
    let mut map = [0u8; N];
    run(table, list, scratch, &mut map)
}

// The check with a map that is long enough for the table: the less map there is, the less is cleared. A link reaches
// unit 65,535 and an entry has at most 68 units, so 65,604 units are enough for a table of any size.
fn run_sized(table: Table<'_>, list: &mut [u32], scratch: &mut [u64]) -> Result<usize, CheckError>
    requires { Begins table.first table.region × (length list.old < length scratch.old) }
    ensures { let t = table.entry in
        Runs (run_of t.window.now t.first t.region (length list.old)) result list.new }
{
    let size = table.region.size;
    if size <= 8192 {
        return run_on::<2048>(table, list, scratch);
    }
    if size <= 65536 {
        return run_on::<16384>(table, list, scratch);
    }
    run_on::<65604>(table, list, scratch)
}

// The strict check of a table: where it finds no fault, the offsets of its entries in walk order in the list, zeros
// past them, and their number; else the first fault, and a list of zeros. The scratch is all zero after it. Where the
// scratch is not longer than the list, all is unchanged. The table is read in its own part of the window.
// (The frame is that of `read_walk::walk`: it is short, and one over both would take the scratch, the error and the
// run as parameters.)
pub fn check_table(
    table: Table<'_>,
    list: &mut [u32],
    scratch: &mut [u64],
) -> Result<usize, CheckError>
    ensures answer { let t = table.entry in
        told result ≡ strict_answer t.window.now t.first t.region (length list.old) (length scratch.old) }
    ensures list { let t = table.entry in
        list.new ≡ list_after t.window.now t.first t.region list.old (length scratch.old) }
    ensures scratch { scratch.new ≡ scratch_after (length list.old) scratch.old }
{
    if scratch.len() <= list.len() {
        return Err(CheckError::Room);
    }
    if table.region.size == 0 {
        clear(list);
        clear(scratch);
        return Ok(0);
    }
    let checked = run_sized(table.narrowed(), list, scratch);
    let n = checked.unwrap_or(0);
    clear_from(list, n);
    clear(scratch);
    checked
}
