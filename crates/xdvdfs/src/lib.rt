// The front door: every public operation, each with its whole contract. No operation asks anything of its caller:
// all bytes and numbers are accepted, every call ends and stays in bounds, and bad input gets one of the numbers of
// docs/SCOPE.md.
//
// A contract `told r ≡ D` says that the answer r, a `Result`, stands for what the definition D gives: `gives X`, or
// `refuses NUMBER VALUES`. The definitions are in the specs/ of the crate that is named in each `ghost use`.
//
// `x.now` is what a `&` lends. Of a `&mut`, `x.old` is what it holds at the call, `x.new` what it holds at the return.
// Columns that belong together are lent as one struct. A clause `memory` is one equation for all that a struct lends,
// and a clause `same` says that its fields still lend the same memory.
#![tactic(auto)]

ghost use Rattle.std.specs.Prelude.{◌≡◌, length};
ghost use Rattle.units.specs.Lent.{IsPart};
ghost use Rattle.dirtab.specs.Serialise as serialising;
ghost use Rattle.dirtab_add.specs.Add as adding;
ghost use Rattle.dirtab_arena.specs.Lent.{columns_of, arena_of, arena_with, IsSame as SameColumns};
ghost use Rattle.dirtab_grow.specs.Listing.{listing_of};
ghost use Rattle.dirtab_list.specs.Scratch as listing;
ghost use Rattle.dirtab_list.specs.Whole as whole;
ghost use Rattle.img_model.specs.Columns.{asked_in, lent_in, IsSameOut, IsSameScratch};
ghost use Rattle.img_model.specs.Image as image;
ghost use Rattle.img_model.specs.Plan as planning;
ghost use Rattle.layout_volume.specs.Descriptor as volume;
ghost use Rattle.read_entry.specs.Entry as entry;
ghost use Rattle.read_lookup.specs.Lookup as lookup;
ghost use Rattle.read_path.specs.Path as following;
ghost use Rattle.read_walk.specs.Walk as walking;
ghost use Rattle.strict_rule.specs.Strict as checking;

pub use avl_model::Names;
pub use dirtab::{Scratch, SerialiseError, WriteError, Written};
pub use dirtab_add::AddError;
pub use dirtab_arena::{Arena, Columns, ColumnsMut, Held};
pub use dirtab_entry::{Cause, Entries, Entry, Kind, kind_of};
pub use dirtab_list::{ListError, ListScratch};
pub use img_model::{PlanError, PlanOut, PlanScratch, Request};
pub use layout_node::Header;
pub use layout_sector::{SectorCounter, SectorOverflow, required_sectors};
pub use layout_volume::{BufferTooSmall, Descriptor, NoVolume};
pub use read_entry::{Placed, ReadError, Table};
pub use read_lookup::{BadRule, Found, LookupError};
pub use read_path::PathError;
pub use read_walk::WalkError;
pub use strict_rule::CheckError;
pub use units::{Link, Offset, OutOfBounds, Region, Sector};

// READING. A `Table` is a directory table by its region, first sector and size, in a window: a slice of image bytes and
// the number of the sector that it starts with.
//
// A lookup and a path take the number of a rule, which says what links are absent: 1 is rule one, with 0 and 255, as
// the Rust has it; 2 is rule two, with 0 and 65,535, as for the walk; any other number is 29. (A number, since C gives
// one and every number is accepted; a `Rule` would ask more of callers.)
//
// A name that the walk lists may not be found. Under rule one an entry at offset 1,020, which a link of 255 names, and
// every entry below it, is listed and answered 22; rule two finds it. Under either rule an entry that stands on the
// wrong side of one above it is not found: that is a fault to the strict check, and a link of 255 is none.

// Reads the volume descriptor that the bytes start with: where the root table stands, and the stamp, of which
// `Descriptor::read_date` says whether it is a date. 20 where a mark differs or is cut.
pub fn read_descriptor(s: &[u8]) -> Result<Descriptor, NoVolume>
    ensures answer { volume.read_told result ≡ volume.read_of s.now }
{
    layout_volume::read_descriptor(s)
}

// Reads the entry at an offset of a table: its header and place in the window, or that there is none. 23, 24 with
// the offset.
pub fn read_entry(table: Table<'_>, offset: Offset) -> Result<Option<Placed>, ReadError>
    ensures answer { let t = table.entry in
        entry.told result ≡ entry.read_at t.window.now t.first t.region offset.0 }
{
    table.read_at(offset)
}

// The name of an entry whose first byte stands at a place of the window: that part of the window itself. Where it
// would start past the window's end, the empty part at the window's start.
pub fn entry_name(w: &[u8], place: usize, n: u8) -> &[u8]
    ensures name { IsPart result w.entry (entry.name_part w.now place n) }
{
    read_entry::name_of(w, place, n)
}

// Looks a name up in a table, under a rule. 29, 2, 21, then 22 with the number of headers read, 23, 24, 25. 22 is that
// the chain came to a link that is absent under the rule, or to no entry: where rule one came to a link of 255, an
// entry may have the name, and the walk lists it.
pub fn look_up(table: Table<'_>, name: &[u8], rule: u32) -> Result<Found, LookupError>
    ensures answer { let t = table.entry in
        lookup.told result ≡ lookup.lookup_of rule t.window.now t.first t.region name.now }
{
    read_lookup::look_up(table, name, rule)
}

// Follows a path from a table, under one rule for all its parts. 29, 2, 28, then for each part what its lookup gives,
// and 27 where a part but the last is no directory. 22 is as for lookup: under rule one a part below a link of 255 is
// not found, though the walk lists it.
pub fn find_path(table: Table<'_>, path: &[u8], rule: u32) -> Result<Placed, PathError>
    ensures answer { let t = table.entry in
        following.told result ≡ following.path_of rule t.window.now t.first t.region path.now }
{
    read_path::find_path(table, path, rule)
}

// Lists the offsets of a table's entries in preorder. 6, then 23, 24, 26 as they are met. 26 is that an entry is read
// when the list is full: the table has more entries, or its links lead round in a ring, which fills any list. Absent
// are the links 0 and 65,535; what stands below one of 255 is listed here, and found by lookup under rule two alone.
pub fn walk(table: Table<'_>, list: &mut [u32], scratch: &mut [u32]) -> Result<usize, WalkError>
    ensures answer { let t = table.entry in
        walking.told result
        ≡ walking.walk_answer t.window.now t.first t.region (length list.old) (length scratch.old) }
    ensures list { let t = table.entry in
        list.new ≡ walking.list_after t.window.now t.first t.region list.old (length scratch.old) }
    ensures scratch { scratch.new ≡ walking.scratch_after (length list.old) scratch.old }
{
    read_walk::walk(table, list, scratch)
}

// Checks a table by a strict rule, and lists it: the walk ends, no entry is reached twice, none overlaps another,
// crosses a sector line or leaves the table, and every name in the left subtree of an entry is less than the entry's,
// every name in its right subtree greater. 6, then the first fault in walk order: 23, 24, 30, 26, 32, 31. In a table
// that is accepted each listed entry is found by its name under rule two, and under rule one unless a link of 255
// stands on the way; but a name with a byte above 127 cannot be sought (2).
pub fn check_table(
    table: Table<'_>,
    list: &mut [u32],
    scratch: &mut [u64],
) -> Result<usize, CheckError>
    ensures answer { let t = table.entry in
        checking.told result
        ≡ checking.strict_answer t.window.now t.first t.region (length list.old) (length scratch.old) }
    ensures list { let t = table.entry in
        list.new ≡ checking.list_after t.window.now t.first t.region list.old (length scratch.old) }
    ensures scratch { scratch.new ≡ checking.scratch_after (length list.old) scratch.old }
{
    strict::check_table(table, list, scratch)
}

// WRITING
//
// Sectors are handed out by a counter: `SectorCounter::new()` stands at the first, 33 (`SectorCounter::FIRST`),
// `SectorCounter::starting_at` at a given one. `take` gives the first of the sectors that a length takes
// (`required_sectors`) and the counter past the last of them, or 8 (`SectorOverflow`); `next_free` is where it stands.
// Their contracts are in `layout_sector`.

// Writes a volume descriptor, with its stamp, into the first 2,048 bytes of the output. 9 where it is shorter.
pub fn write_descriptor(out: &mut [u8], d: Descriptor) -> Result<(), BufferTooSmall>
    ensures answer { volume.write_told result ≡ volume.write_of out.old }
    ensures output { out.new ≡ volume.bytes_after out.old d }
{
    layout_volume::write_descriptor(out, d)
}

// Adds an entry to the table that an arena holds: columns by node, of which the first `tree.count` places are held,
// and bytes lent for names. The columns are the tree's (left, right, parent, height) and the entries' (place and
// length of the name, size, kind: 1 is a directory). 12, then 1, 2, 3, 5, 4, 6; all unchanged on a refusal.
pub fn add(
    tree: Held,
    columns: &mut ColumnsMut<'_>,
    names: &[u8],
    entry: Entry,
) -> Result<Held, AddError>
    ensures answer { adding.told result ≡ adding.add_of (arena_with tree columns.old names.now) entry }
    ensures memory { columns_of columns.new
        ≡ adding.columns_after (arena_with tree columns.old names.now) entry }
    ensures same { SameColumns columns.old columns.new }
{
    dirtab_add::add(tree, columns, names, entry)
}

// Writes the table that an arena holds, with sectors from `first` on: the reported size and the next free sector.
// `order` and `place` are scratch, zero afterwards. 12, then 6, 7, 8, 9, all before any write; the output past the
// rounded size is unchanged.
pub fn serialise(
    arena: Arena<'_>,
    first: Sector,
    scratch: &mut Scratch<'_>,
    out: &mut [u8],
) -> Result<Written, SerialiseError>
    ensures answer { serialising.told result
        ≡ serialising.answer_in (arena_of arena.entry) first.0 (serialising.lent_of scratch.old out.old) }
    ensures memory { serialising.lent_of scratch.new out.new
        ≡ serialising.lent_after (arena_of arena.entry) first.0 (serialising.lent_of scratch.old out.old) }
    ensures same { serialising.IsSame scratch.old scratch.new }
{
    dirtab::serialise(arena, first, scratch, out)
}

// Writes the table of the first `count` entries of a list in one call, with sectors from `first` on: the bytes and
// the numbers that adding each entry in turn and serialising give. The list's columns are as those of an arena
// (place and length of the name, size, kind); the columns from `left` to `place` are scratch, zero afterwards. 6
// where any column is shorter than the count, and then all is unchanged; then for the first entry that adding
// refuses 1, 2, 3, 5, 4, 6 with its number; then 7, 8, 9.
pub fn write_list(
    count: u32,
    entries: Entries<'_>,
    first: Sector,
    scratch: &mut ListScratch<'_>,
    out: &mut [u8],
) -> Result<Written, ListError>
    ensures answer { let list = listing_of count entries.entry in
        whole.told result ≡ whole.answer_in list first.0 (listing.lent_by scratch.old out.old) }
    ensures memory { let list = listing_of count entries.entry in
        listing.lent_by scratch.new out.new ≡ whole.lent_after list first.0 (listing.lent_by scratch.old out.old) }
    ensures same { listing.IsSame scratch.old scratch.new }
{
    dirtab_list::write_list(count, entries, first, scratch, out)
}

// Plans an image: the reported size and the sector of each directory's table, and the sector of each entry; the
// answer is the next free sector. A directory is a share of one list of entries (the place of its first entry, how
// many), the root first. An entry has its name's place and length, its kind (1 is a directory), and its value: a
// file's length, or the place of its directory in the list of directories, a later one than its own. The root table
// stands at sector 33. An entry that lies in two shares takes sectors in both and keeps those of the later directory;
// one that lies in none keeps what was there. 6 where a column is too short: for the directories, for the entries, or
// the six of the tree for the largest share. Then 11; 6 where `order` is shorter than all shares together; from the
// last directory back 10, 1, 2, 3, 4, 6 with the entry's place in the list (never 5: `never_5` of agree_plan);
// forward 7 and 8 with the directory's number. After a refusal `sizes`, `tables` and `sectors` are unchanged. The
// columns from `sized` on are scratch: all zero after the call, and unchanged after the first 6.
pub fn plan(
    directories: u32,
    entries: u32,
    request: Request<'_>,
    out: &mut PlanOut<'_>,
    scratch: &mut PlanScratch<'_>,
) -> Result<Sector, PlanError>
    ensures answer { let asked = asked_in directories entries request.entry in
        planning.told result ≡ image.answer_in asked (lent_in out.old scratch.old) }
    ensures memory { let asked = asked_in directories entries request.entry in
        lent_in out.new scratch.new ≡ image.lent_after asked (lent_in out.old scratch.old) }
    ensures same { IsSameOut out.old out.new × IsSameScratch scratch.old scratch.new }
{
    img::plan(directories, entries, request, out, scratch)
}
