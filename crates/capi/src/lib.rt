// The operations of `xdvdfs` for C, and for any language that calls as C does: on numbers, slices (a pointer and a
// length) and cells (a pointer). include/xdvdfs.h declares them.
//
// What a function returns is a number of docs/SCOPE.md, 0 where nothing is refused. The values of the answer go into
// lent cells, and a cell for which the answer has no value is unchanged (capi_cells/specs/Cells.antt); but the limits
// loader stores every cell at every call, so that no older value is left in one. Each contract says so by the
// definition that the like-named operation of `xdvdfs` or `limits` has: the number, each cell and each lent slice is an
// equation. No function asks anything of its caller beyond what every call from C does: pointers to as many elements
// as the length says, and no two that overlap.
//
// `x.now`, `x.old` and `x.new` are as in `xdvdfs`: of a `&`, and of a `&mut` at the call and at the return.
//
// Each function makes the call, and a `store_` function of `capi_cells` or `capi_written` puts the answer where it
// belongs.
#![tactic(auto)]

ghost use Rattle.std.specs.Prelude.{◌≡◌, length, take, drop};
ghost use Rattle.units.specs.Told.{number_of};
ghost use Rattle.dirtab.specs.Serialise as serialising;
ghost use Rattle.dirtab_add.specs.Add as adding;
ghost use Rattle.dirtab_arena.specs.Arena.{arena_in, columns};
ghost use Rattle.dirtab_list.specs.Whole as whole;
ghost use Rattle.img_model.specs.Image as image;
ghost use Rattle.layout_sector.specs.Counter as sectors;
ghost use Rattle.layout_volume.specs.Descriptor as volume;
ghost use Rattle.limits_rule.specs.Limits as loading;
ghost use Rattle.read_entry.specs.Entry as entry;
ghost use Rattle.read_lookup.specs.Lookup as lookup;
ghost use Rattle.read_path.specs.Path as following;
ghost use Rattle.read_walk.specs.Walk as walking;
ghost use Rattle.strict_rule.specs.Strict as checking;
ghost use Rattle.capi.specs.Given.{sector_of, region_of, descriptor_of, entry_of};
ghost use Rattle.capi_cells.specs.Cells.{of_given, of_some, is_some, of_refusal, at_offset, at_fault, after_headers};
ghost use Rattle.capi_cells.specs.Cells.{start_of_name};
ghost use Rattle.capi_cells.specs.Parts.{placed_fields, placed_at, found_fields, found_place, found_offset};
ghost use Rattle.capi_cells.specs.Parts.{found_headers};
ghost use Rattle.capi_cells.specs.Parts.{root_sector, root_size, stamp_of, itself};
ghost use Rattle.capi_written.specs.Parts.{of_entry, of_planned, of_directory, grown_root, grown_count, size_of_table};
ghost use Rattle.capi_written.specs.Parts.{next_free, run_start, run_free};

use capi_cells::{
    store_checked, store_descriptor, store_entry, store_limits, store_looked, store_name,
    store_path, store_walked,
};
use capi_written::{
    number_of_written, store_added, store_planned, store_serialised, store_taken, store_written,
};
use xdvdfs::{
    Arena, Columns, ColumnsMut, Descriptor, Entries, Entry, Held, Kind, ListScratch, Names, Offset,
    PlanOut, PlanScratch, Region, Request, Scratch, Sector, SectorCounter, Table,
};

// The sector, and the table, that numbers stand for.
// (By a name of its own, as `region_of` and `table_of`.)
fn sector_of(n: u32) -> Sector
    ensures { result ≡ sector_of n }
{
    Sector::new(n)
}

fn region_of(sector: u32, size: u32) -> Region
    ensures { result ≡ region_of sector size }
{
    Region {
        sector: sector_of(sector),
        size,
    }
}

// The table in its window.
fn table_of(w: &[u8], first: u32, sector: u32, size: u32) -> Table<'_>
    ensures { (result.window.now ≡ w.now) × (result.first ≡ sector_of first)
        × (result.region ≡ region_of sector size) }
{
    Table {
        window: w,
        first: sector_of(first),
        region: region_of(sector, size),
    }
}

// READING

// Reads the volume descriptor that the bytes start with: sector and size of the root table, and the stamp. 20.
#[unsafe(no_mangle)]
pub extern "C" fn xdvdfs_read_descriptor(
    s: &[u8],
    sector: &mut u32,
    size: &mut u32,
    stamp: &mut u64,
) -> u32
    ensures number { let answer = volume.read_of s.now in
        result ≡ number_of answer }
    ensures sector { let answer = volume.read_of s.now in
        sector.new ≡ of_given root_sector answer sector.old }
    ensures size { let answer = volume.read_of s.now in
        size.new ≡ of_given root_size answer size.old }
    ensures stamp { let answer = volume.read_of s.now in
        stamp.new ≡ of_given stamp_of answer stamp.old }
{
    store_descriptor(xdvdfs::read_descriptor(s), sector, size, stamp)
}

// Reads the entry at an offset of a table: whether one is there, its six fields and its place in the window. 23,
// 24, both of the offset given.
#[unsafe(no_mangle)]
pub extern "C" fn xdvdfs_read_entry(
    w: &[u8],
    first: u32,
    sector: u32,
    size: u32,
    offset: u32,
    found: &mut u32,
    fields: &mut [u32; 6],
    place: &mut usize,
) -> u32
    ensures number { let answer = entry.read_at w.now (sector_of first) (region_of sector size) offset in
        result ≡ number_of answer }
    ensures found { let answer = entry.read_at w.now (sector_of first) (region_of sector size) offset in
        found.new ≡ of_given is_some answer found.old }
    ensures fields { let answer = entry.read_at w.now (sector_of first) (region_of sector size) offset in
        fields.new ≡ of_some placed_fields answer fields.old }
    ensures place { let answer = entry.read_at w.now (sector_of first) (region_of sector size) offset in
        place.new ≡ of_some placed_at answer place.old }
{
    let table = table_of(w, first, sector, size);
    store_entry(
        xdvdfs::read_entry(table, Offset::new(offset)),
        found,
        fields,
        place,
    )
}

// The name of an entry whose first byte stands at a place of the window: where in the window it starts, and its
// length. That is `name_len`, as an entry's fields have it, where the window has as many bytes there.
#[unsafe(no_mangle)]
pub extern "C" fn xdvdfs_entry_name(
    w: &[u8],
    place: usize,
    name_len: u32,
    start: &mut usize,
    len: &mut usize,
)
    ensures start { start.new ≡ start_of_name w.now place }
    ensures len { len.new ≡ length (entry.name_of w.now place name_len) }
    ensures part { take len.new (drop start.new w.now) ≡ entry.name_of w.now place name_len }
{
    store_name(w, place, name_len, start, len)
}

// Looks a name up in a table, under the rule of a number: the entry's fields, its place in the window and its offset
// in the table, and the number of headers read. 29, 2, 21, then 22 with the number of headers, 23, 24 with the offset,
// 25. 22 is that the chain came to a link that is absent under the rule (1: 0 and 255; 2: 0 and 65,535), or to no
// entry: where rule one came to a link of 255, an entry below it may have the name, and the walk lists it.
#[unsafe(no_mangle)]
pub extern "C" fn xdvdfs_look_up(
    w: &[u8],
    first: u32,
    sector: u32,
    size: u32,
    name: &[u8],
    rule: u32,
    fields: &mut [u32; 6],
    place: &mut usize,
    offset: &mut u32,
    headers: &mut u32,
) -> u32
    ensures number { let answer = lookup.lookup_of rule w.now (sector_of first) (region_of sector size) name.now in
        result ≡ number_of answer }
    ensures fields { let answer = lookup.lookup_of rule w.now (sector_of first)
        (region_of sector size) name.now in
        fields.new ≡ of_given found_fields answer fields.old }
    ensures place { let answer = lookup.lookup_of rule w.now (sector_of first) (region_of sector size) name.now in
        place.new ≡ of_given found_place answer place.old }
    ensures offset { let answer = lookup.lookup_of rule w.now (sector_of first)
        (region_of sector size) name.now in
        offset.new ≡ of_refusal at_offset answer (of_given found_offset answer offset.old) }
    ensures headers { let answer = lookup.lookup_of rule w.now (sector_of first)
        (region_of sector size) name.now in
        headers.new ≡ of_refusal after_headers answer (of_given found_headers answer headers.old) }
{
    let found = xdvdfs::look_up(table_of(w, first, sector, size), name, rule);
    store_looked(found, fields, place, offset, headers)
}

// Follows a path from a table, under the rule of a number: the entry's fields and its place in the window. 29, 2, 28,
// then as the lookup of each part, 22 without its count, and 27. Under rule one a part below a link of 255 is not
// found, though the walk lists it.
#[unsafe(no_mangle)]
pub extern "C" fn xdvdfs_find_path(
    w: &[u8],
    first: u32,
    sector: u32,
    size: u32,
    path: &[u8],
    rule: u32,
    fields: &mut [u32; 6],
    place: &mut usize,
    offset: &mut u32,
) -> u32
    ensures number { let answer = following.path_of rule w.now (sector_of first) (region_of sector size) path.now in
        result ≡ number_of answer }
    ensures fields { let answer = following.path_of rule w.now (sector_of first)
        (region_of sector size) path.now in
        fields.new ≡ of_given placed_fields answer fields.old }
    ensures place { let answer = following.path_of rule w.now (sector_of first)
        (region_of sector size) path.now in
        place.new ≡ of_given placed_at answer place.old }
    ensures offset { let answer = following.path_of rule w.now (sector_of first)
        (region_of sector size) path.now in
        offset.new ≡ of_refusal at_offset answer offset.old }
{
    let found = xdvdfs::find_path(table_of(w, first, sector, size), path, rule);
    store_path(found, fields, place, offset)
}

// Lists the offsets of a table's entries in preorder, and says how many they are. 6, then 23, 24 with the offset, 26
// where an entry is read when the list is full, as in a ring. What stands below a link of 255 is listed here, and found
// by lookup under rule two alone.
#[unsafe(no_mangle)]
pub extern "C" fn xdvdfs_walk(
    w: &[u8],
    first: u32,
    sector: u32,
    size: u32,
    list: &mut [u32],
    scratch: &mut [u32],
    count: &mut usize,
    offset: &mut u32,
) -> u32
    ensures number { let table = region_of sector size in
        let answer = walking.walk_answer w.now (sector_of first) table (length list.old) (length scratch.old) in
        result ≡ number_of answer }
    ensures count { let table = region_of sector size in
        let answer = walking.walk_answer w.now (sector_of first) table (length list.old) (length scratch.old) in
        count.new ≡ of_given itself answer count.old }
    ensures offset { let table = region_of sector size in
        let answer = walking.walk_answer w.now (sector_of first) table (length list.old) (length scratch.old) in
        offset.new ≡ of_refusal at_offset answer offset.old }
    ensures list { let table = region_of sector size in
        list.new ≡ walking.list_after w.now (sector_of first) table list.old (length scratch.old) }
    ensures scratch { scratch.new ≡ walking.scratch_after (length list.old) scratch.old }
{
    let walked = xdvdfs::walk(table_of(w, first, sector, size), list, scratch);
    store_walked(walked, count, offset)
}

// Checks a table by the strict rule of `xdvdfs::check_table`, and lists it. 6, then 23, 24, 30, 26, 32, 31, all but 6
// and 26 with the offset. In a table that is accepted a lookup under rule two finds each listed name that has no byte
// above 127.
#[unsafe(no_mangle)]
pub extern "C" fn xdvdfs_check_table(
    w: &[u8],
    first: u32,
    sector: u32,
    size: u32,
    list: &mut [u32],
    scratch: &mut [u64],
    count: &mut usize,
    offset: &mut u32,
) -> u32
    ensures number { let table = region_of sector size in
        let answer = checking.strict_answer w.now (sector_of first) table (length list.old) (length scratch.old) in
        result ≡ number_of answer }
    ensures count { let table = region_of sector size in
        let answer = checking.strict_answer w.now (sector_of first) table (length list.old) (length scratch.old) in
        count.new ≡ of_given itself answer count.old }
    ensures offset { let table = region_of sector size in
        let answer = checking.strict_answer w.now (sector_of first) table (length list.old) (length scratch.old) in
        offset.new ≡ of_refusal at_fault answer offset.old }
    ensures list { let table = region_of sector size in
        list.new ≡ checking.list_after w.now (sector_of first) table list.old (length scratch.old) }
    ensures scratch { scratch.new ≡ checking.scratch_after (length list.old) scratch.old }
{
    let checked = xdvdfs::check_table(table_of(w, first, sector, size), list, scratch);
    store_checked(checked, count, offset)
}

// THE LIMITS LOADER

// Finds a file by its path, under rule two, in an image whose date allows it at a time and by a greatest age, both
// counted in 100 ns as the stamp is: the file's sector, its size and the volume's stamp. 20, 40, 41, 42, then as
// `xdvdfs_find_path`, without its offset, then 43. All three cells are stored at every call, with 0 on a refusal.
#[unsafe(no_mangle)]
pub extern "C" fn xdvdfs_load_limits(
    w: &[u8],
    first: u32,
    path: &[u8],
    time: u64,
    age: u64,
    sector: &mut u32,
    size: &mut u32,
    stamp: &mut u64,
) -> u32
    ensures number { let answer = loading.limits_of w.now (sector_of first) path.now time age in
        result ≡ answer.number }
    ensures sector { let answer = loading.limits_of w.now (sector_of first) path.now time age in
        sector.new ≡ answer.sector.0 }
    ensures size { let answer = loading.limits_of w.now (sector_of first) path.now time age in
        size.new ≡ answer.size }
    ensures stamp { let answer = loading.limits_of w.now (sector_of first) path.now time age in
        stamp.new ≡ answer.stamp }
{
    let limits = limits::load_limits(w, sector_of(first), path, time, age);
    store_limits(limits, sector, size, stamp)
}

// WRITING

// Writes a volume descriptor, with its stamp, into the first 2,048 bytes of the output. 9.
#[unsafe(no_mangle)]
pub extern "C" fn xdvdfs_write_descriptor(out: &mut [u8], sector: u32, size: u32, stamp: u64) -> u32
    ensures number { result ≡ number_of (volume.write_of out.old) }
    ensures out { out.new ≡ volume.bytes_after out.old (descriptor_of sector size stamp) }
{
    let d = Descriptor {
        root: region_of(sector, size),
        stamp,
    };
    number_of_written(xdvdfs::write_descriptor(out, d))
}

// The number of the first sector that an image hands out.
#[unsafe(no_mangle)]
pub extern "C" fn xdvdfs_first_sector() -> u32
    ensures { result ≡ 33 }
{
    SectorCounter::FIRST
}

// The sectors that a length takes.
#[unsafe(no_mangle)]
pub extern "C" fn xdvdfs_required_sectors(length: u64) -> u64
    ensures { result ≡ sectors.sectors_for length }
{
    xdvdfs::required_sectors(length)
}

// Takes the sectors of a length from the next free one on: the first of them, and the next free one after them. 8.
#[unsafe(no_mangle)]
pub extern "C" fn xdvdfs_take_sectors(next: &mut u32, length: u64, start: &mut u32) -> u32
    ensures number { let answer = sectors.take_of 1 next.old length in
        result ≡ number_of answer }
    ensures next { let answer = sectors.take_of 1 next.old length in
        next.new ≡ of_given run_free answer next.old }
    ensures start { let answer = sectors.take_of 1 next.old length in
        start.new ≡ of_given run_start answer start.old }
{
    let counter = SectorCounter::starting_at(sector_of(*next));
    store_taken(counter.take(length), next, start)
}

// Adds an entry to the table that an arena holds; root and count of the held tree are cells. An entry_kind of 1 is a
// directory; any other number is a file, and 0 is stored for it. 12, then 1, 2, 3, 5, 4, 6.
#[unsafe(no_mangle)]
pub extern "C" fn xdvdfs_add(
    root: &mut u16,
    count: &mut u16,
    left: &mut [u16],
    right: &mut [u16],
    parent: &mut [u16],
    height: &mut [u8],
    start: &mut [u32],
    len: &mut [u32],
    size: &mut [u32],
    kind: &mut [u8],
    names: &[u8],
    name_start: u32,
    name_len: u32,
    entry_kind: u8,
    entry_size: u32,
) -> u32
    ensures number { let A = arena_in root.old count.old left.old right.old parent.old height.old start.old len.old
        size.old kind.old names.now in
        let entry = entry_of name_start name_len entry_kind entry_size in
        let answer = adding.add_of A entry in
        result ≡ number_of answer }
    ensures root { let A = arena_in root.old count.old left.old right.old parent.old height.old start.old len.old
        size.old kind.old names.now in
        let entry = entry_of name_start name_len entry_kind entry_size in
        let answer = adding.add_of A entry in
        root.new ≡ of_given grown_root answer root.old }
    ensures count { let A = arena_in root.old count.old left.old right.old parent.old height.old start.old len.old
        size.old kind.old names.now in
        let entry = entry_of name_start name_len entry_kind entry_size in
        let answer = adding.add_of A entry in
        count.new ≡ of_given grown_count answer count.old }
    ensures lent { let A = arena_in root.old count.old left.old right.old parent.old height.old start.old len.old
        size.old kind.old names.now in
        let after = columns left.new right.new parent.new height.new start.new len.new size.new kind.new in
        let entry = entry_of name_start name_len entry_kind entry_size in
        after ≡ adding.columns_after A entry }
{
    let tree = Held {
        root: *root,
        count: *count,
    };
    let entry = Entry {
        start: name_start,
        len: name_len,
        kind: Kind::from(entry_kind),
        size: entry_size,
    };
    let mut columns = ColumnsMut {
        left,
        right,
        parent,
        height,
        start,
        len,
        size,
        kind,
    };
    let added = xdvdfs::add(tree, &mut columns, names, entry);
    store_added(added, root, count)
}

// Writes the table that an arena holds, with sectors from `first` on: the reported size, and the next free sector.
// `order` and `place` are scratch. 12, then 6, 7, 8, 9.
#[unsafe(no_mangle)]
pub extern "C" fn xdvdfs_serialise(
    root: u16,
    count: u16,
    left: &[u16],
    right: &[u16],
    parent: &[u16],
    height: &[u8],
    start: &[u32],
    len: &[u32],
    size: &[u32],
    kind: &[u8],
    names: &[u8],
    first: u32,
    order: &mut [u16],
    place: &mut [u16],
    out: &mut [u8],
    table_size: &mut u32,
    free: &mut u32,
) -> u32
    ensures number { let A = arena_in root count left.now right.now parent.now height.now start.now len.now
        size.now kind.now names.now in
        let before = serialising.lent order.old place.old out.old in
        let answer = serialising.answer_in A first before in
        result ≡ number_of answer }
    ensures table_size { let A = arena_in root count left.now right.now parent.now height.now start.now len.now
        size.now kind.now names.now in
        let before = serialising.lent order.old place.old out.old in
        let answer = serialising.answer_in A first before in
        table_size.new ≡ of_given size_of_table answer table_size.old }
    ensures free { let A = arena_in root count left.now right.now parent.now height.now start.now len.now
        size.now kind.now names.now in
        let before = serialising.lent order.old place.old out.old in
        let answer = serialising.answer_in A first before in
        free.new ≡ of_given next_free answer free.old }
    ensures lent { let A = arena_in root count left.now right.now parent.now height.now start.now len.now
        size.now kind.now names.now in
        let before = serialising.lent order.old place.old out.old in
        let after = serialising.lent order.new place.new out.new in
        after ≡ serialising.lent_after A first before }
{
    let arena = Arena {
        tree: Held { root, count },
        columns: Columns {
            left,
            right,
            parent,
            height,
            start,
            len,
            size,
            kind,
        },
        names,
    };
    let mut scratch = Scratch { order, place };
    let written = xdvdfs::serialise(arena, sector_of(first), &mut scratch, out);
    store_serialised(written, table_size, free)
}

// Writes the table of the first `count` entries of a list in one call, with sectors from `first` on: the reported
// size, and the next free sector. The columns from `left` to `place` are scratch. 6 where a column is too short;
// then 1, 2, 3, 5, 4, 6 with the number of the entry; then 7, 8, 9.
#[unsafe(no_mangle)]
pub extern "C" fn xdvdfs_write_list(
    count: u32,
    start: &[u32],
    len: &[u32],
    size: &[u32],
    kind: &[u8],
    names: &[u8],
    first: u32,
    left: &mut [u16],
    right: &mut [u16],
    parent: &mut [u16],
    height: &mut [u8],
    key: &mut [u32],
    order: &mut [u16],
    place: &mut [u16],
    out: &mut [u8],
    table_size: &mut u32,
    free: &mut u32,
    entry: &mut u32,
) -> u32
    ensures number { let list = whole.listing count start.now len.now size.now kind.now names.now in
        let before = whole.lent left.old right.old parent.old height.old key.old order.old place.old out.old in
        let answer = whole.answer_in list first before in
        result ≡ number_of answer }
    ensures table_size { let list = whole.listing count start.now len.now size.now kind.now names.now in
        let before = whole.lent left.old right.old parent.old height.old key.old order.old place.old out.old in
        let answer = whole.answer_in list first before in
        table_size.new ≡ of_given size_of_table answer table_size.old }
    ensures free { let list = whole.listing count start.now len.now size.now kind.now names.now in
        let before = whole.lent left.old right.old parent.old height.old key.old order.old place.old out.old in
        let answer = whole.answer_in list first before in
        free.new ≡ of_given next_free answer free.old }
    ensures entry { let list = whole.listing count start.now len.now size.now kind.now names.now in
        let before = whole.lent left.old right.old parent.old height.old key.old order.old place.old out.old in
        let answer = whole.answer_in list first before in
        entry.new ≡ of_refusal of_entry answer entry.old }
    ensures lent { let list = whole.listing count start.now len.now size.now kind.now names.now in
        let before = whole.lent left.old right.old parent.old height.old key.old order.old place.old out.old in
        let after = whole.lent left.new right.new parent.new height.new key.new order.new place.new out.new in
        after ≡ whole.lent_after list first before }
{
    let entries = Entries {
        names: Names {
            bytes: names,
            start,
            len,
        },
        size,
        kind,
    };
    let mut scratch = ListScratch {
        left,
        right,
        parent,
        height,
        key,
        order,
        place,
    };
    let written = xdvdfs::write_list(count, entries, sector_of(first), &mut scratch, out);
    store_written(written, table_size, free, entry)
}

// Plans an image: the reported size and the sector of each directory's table, and the sector of each entry; the
// next free sector. The columns from `sized` on are scratch. 6, then 11, then 6 where `order` is shorter than all
// shares together, then 10, 1, 2, 3, 4, 6 with the entry's place in the list (never 5: `never_5` of agree_plan), then
// 7, 8 with the directory's number. An entry in two shares keeps the later directory's sectors, one in none what was
// there.
#[unsafe(no_mangle)]
pub extern "C" fn xdvdfs_plan(
    directories: u32,
    entries: u32,
    from: &[u32],
    share: &[u32],
    start: &[u32],
    len: &[u32],
    kind: &[u8],
    value: &[u64],
    names: &[u8],
    sizes: &mut [u32],
    tables: &mut [u32],
    sectors: &mut [u32],
    sized: &mut [u32],
    left: &mut [u16],
    right: &mut [u16],
    parent: &mut [u16],
    height: &mut [u8],
    key: &mut [u32],
    size: &mut [u32],
    order: &mut [u16],
    free: &mut u32,
    entry: &mut u32,
    directory: &mut u32,
) -> u32
    ensures number { let a = image.asked directories entries from.now share.now start.now len.now kind.now
        value.now names.now in
        let before = image.lent sizes.old tables.old sectors.old sized.old left.old right.old parent.old height.old
        key.old size.old order.old in
        let answer = image.answer_in a before in
        result ≡ number_of answer }
    ensures free { let a = image.asked directories entries from.now share.now start.now len.now kind.now
        value.now names.now in
        let before = image.lent sizes.old tables.old sectors.old sized.old left.old right.old parent.old height.old
        key.old size.old order.old in
        let answer = image.answer_in a before in
        free.new ≡ of_given itself answer free.old }
    ensures entry { let a = image.asked directories entries from.now share.now start.now len.now kind.now
        value.now names.now in
        let before = image.lent sizes.old tables.old sectors.old sized.old left.old right.old parent.old height.old
        key.old size.old order.old in
        let answer = image.answer_in a before in
        entry.new ≡ of_refusal of_planned answer entry.old }
    ensures directory { let a = image.asked directories entries from.now share.now start.now len.now kind.now
        value.now names.now in
        let before = image.lent sizes.old tables.old sectors.old sized.old left.old right.old parent.old height.old
        key.old size.old order.old in
        let answer = image.answer_in a before in
        directory.new ≡ of_refusal of_directory answer directory.old }
    ensures lent { let a = image.asked directories entries from.now share.now start.now len.now kind.now
        value.now names.now in
        let before = image.lent sizes.old tables.old sectors.old sized.old left.old right.old parent.old height.old
        key.old size.old order.old in
        let after = image.lent sizes.new tables.new sectors.new sized.new left.new right.new parent.new height.new
        key.new size.new order.new in
        after ≡ image.lent_after a before }
{
    let request = Request {
        from,
        share,
        names: Names {
            bytes: names,
            start,
            len,
        },
        kind,
        value,
    };
    let mut out = PlanOut {
        sizes,
        tables,
        sectors,
    };
    let mut scratch = PlanScratch {
        sized,
        left,
        right,
        parent,
        height,
        key,
        size,
        order,
    };
    let planned = xdvdfs::plan(directories, entries, request, &mut out, &mut scratch);
    store_planned(planned, free, entry, directory)
}
