// An answer of reading as a number and cells: for each answer a function that puts its values into lent cells,
// leaves the others unchanged, and gives the answer's number of docs/SCOPE.md, 0 for what is no refusal. Each
// contract is over what the answer is told as (specs/Cells.antt). Of the limits loader every cell is stored, on a
// refusal too. Crate capi_written has those of writing.
// They are for C, which has no Result; the rows of cells are those that the C function has. A line that ends in a
// remark, as `// of a walk`, is the place of an edit in must-fail/.
#![tactic(auto)]

ghost use Rattle.std.specs.Prelude.{◌≡◌, min, ◌+◌, length, take, drop};
ghost use Rattle.units.specs.Told.{number_of};
ghost use Rattle.layout_volume.specs.Descriptor as volume;
ghost use Rattle.limits_rule.specs.Limits as loading;
ghost use Rattle.read_entry.specs.Entry as entry;
ghost use Rattle.read_lookup.specs.Lookup as lookup;
ghost use Rattle.read_path.specs.Path as following;
ghost use Rattle.read_walk.specs.Walk as walking;
ghost use Rattle.strict_rule.specs.Strict as checking;
ghost use Rattle.capi_cells.specs.Cells.{of_given, of_some, is_some, of_refusal, at_offset, at_fault, after_headers};
ghost use Rattle.capi_cells.specs.Cells.{start_of_name};
ghost use Rattle.capi_cells.specs.Parts.{fields_of, placed_fields, placed_at, found_fields, found_place};
ghost use Rattle.capi_cells.specs.Parts.{found_offset, found_headers, root_sector, root_size, stamp_of, itself};

use layout_node::Header;
use layout_volume::{Descriptor, NoVolume};
use limits_rule::{Limits, LimitsError};
use read_entry::{Placed, ReadError};
use read_lookup::{Found, LookupError};
use read_path::PathError;
use read_walk::WalkError;
use strict_rule::CheckError;

// The six numbers of a header.
pub fn store_fields(h: Header, fields: &mut [u32; 6])
    ensures { fields.new ≡ fields_of h }
{
    *fields = [
        u32::from(h.left.number()),
        u32::from(h.right.number()),
        h.sector.number(),
        h.size,
        u32::from(h.attributes),
        u32::from(h.name_len),
    ];
}

// Where the root table stands, and the stamp.
pub fn store_descriptor(
    answer: Result<Descriptor, NoVolume>,
    sector: &mut u32,
    size: &mut u32,
    stamp: &mut u64,
) -> u32
    ensures number { result ≡ number_of (volume.read_told answer) }
    ensures sector { sector.new ≡ of_given root_sector (volume.read_told answer) sector.old }
    ensures size { size.new ≡ of_given root_size (volume.read_told answer) size.old }
    ensures stamp { stamp.new ≡ of_given stamp_of (volume.read_told answer) stamp.old }
{
    match answer {
        Ok(d) => {
            *sector = d.root.sector.number();
            *size = d.root.size;
            *stamp = d.stamp;
            0
        }
        Err(e) => e.number(), // of a descriptor
    }
}

// Whether an entry is there, its fields and its place in the window.
pub fn store_entry(
    answer: Result<Option<Placed>, ReadError>,
    found: &mut u32,
    fields: &mut [u32; 6],
    place: &mut usize,
) -> u32
    ensures number { result ≡ number_of (entry.told answer) }
    ensures found { found.new ≡ of_given is_some (entry.told answer) found.old }
    ensures fields { fields.new ≡ of_some placed_fields (entry.told answer) fields.old }
    ensures place { place.new ≡ of_some placed_at (entry.told answer) place.old }
{
    match answer {
        Ok(Some(placed)) => {
            *found = 1;
            store_fields(placed.header, fields);
            *place = placed.place;
            0
        }
        Ok(None) => {
            *found = 0;
            0
        }
        Err(e) => e.number(), // of an entry
    }
}

// Where the name of an entry starts in a window of n bytes, or the window's end.
fn name_start(n: usize, place: usize) -> usize
    ensures { result ≡ min (place + 14) n }
{
    if n < 14 {
        return n;
    }
    if n - 14 < place {
        return n;
    }
    place + 14
}

// Where in a window the name of an entry starts, and its length.
pub fn store_name(w: &[u8], place: usize, n: u32, start: &mut usize, len: &mut usize)
    ensures start { start.new ≡ start_of_name w.now place }
    ensures len { len.new ≡ length (entry.name_of w.now place n) }
    ensures part { take len.new (drop start.new w.now) ≡ entry.name_of w.now place n }
{
    *start = name_start(w.len(), place);
    let name = read_entry::name_part(w, place, n);
    *len = name.len();
}

// The entry's fields, its place in the window, its offset in the table, and the number of headers read; of a
// refusal the offset or the number of headers.
#[tactic(auto, unfolding(read_entry::specs::Links::is_in))]
pub fn store_looked(
    answer: Result<Found, LookupError>,
    fields: &mut [u32; 6],
    place: &mut usize,
    offset: &mut u32,
    headers: &mut u32,
) -> u32
    ensures number { result ≡ number_of (lookup.told answer) }
    ensures fields { fields.new ≡ of_given found_fields (lookup.told answer) fields.old }
    ensures place { place.new ≡ of_given found_place (lookup.told answer) place.old }
    ensures offset { offset.new ≡ of_refusal at_offset (lookup.told answer)
        (of_given found_offset (lookup.told answer) offset.old) }
    ensures headers { headers.new ≡ of_refusal after_headers (lookup.told answer)
        (of_given found_headers (lookup.told answer) headers.old) }
{
    match answer {
        Ok(found) => {
            store_fields(found.entry.header, fields);
            *place = found.entry.place;
            *offset = found.offset.number();
            *headers = found.headers;
            0
        }
        Err(e) => {
            match e {
                LookupError::DoesNotExist(n) => *headers = n,
                LookupError::Read(r) => *offset = r.offset().number(),
                _ => {}
            }
            e.number() // of a lookup
        }
    }
}

// The entry's fields and its place in the window; of a refusal the offset.
#[tactic(auto, unfolding(read_entry::specs::Links::is_in))]
pub fn store_path(
    answer: Result<Placed, PathError>,
    fields: &mut [u32; 6],
    place: &mut usize,
    offset: &mut u32,
) -> u32
    ensures number { result ≡ number_of (following.told answer) }
    ensures fields { fields.new ≡ of_given placed_fields (following.told answer) fields.old }
    ensures place { place.new ≡ of_given placed_at (following.told answer) place.old }
    ensures offset { offset.new ≡ of_refusal at_offset (following.told answer) offset.old }
{
    match answer {
        Ok(placed) => {
            store_fields(placed.header, fields);
            *place = placed.place;
            0
        }
        Err(e) => {
            if let PathError::Read(r) = e {
                *offset = r.offset().number();
            }
            e.number() // of a path
        }
    }
}

// How many offsets are listed; of a refusal the offset.
#[tactic(auto, unfolding(read_entry::specs::Links::is_in))]
pub fn store_walked(answer: Result<usize, WalkError>, count: &mut usize, offset: &mut u32) -> u32
    ensures number { result ≡ number_of (walking.told answer) }
    ensures count { count.new ≡ of_given itself (walking.told answer) count.old }
    ensures offset { offset.new ≡ of_refusal at_offset (walking.told answer) offset.old }
{
    match answer {
        Ok(n) => {
            *count = n;
            0
        }
        Err(e) => {
            if let WalkError::Read(r) = e {
                *offset = r.offset().number();
            }
            e.number() // of a walk
        }
    }
}

// The same of the strict check.
#[tactic(auto, unfolding(read_entry::specs::Links::is_in))]
pub fn store_checked(answer: Result<usize, CheckError>, count: &mut usize, offset: &mut u32) -> u32
    ensures number { result ≡ number_of (checking.told answer) }
    ensures count { count.new ≡ of_given itself (checking.told answer) count.old }
    ensures offset { offset.new ≡ of_refusal at_fault (checking.told answer) offset.old }
{
    match answer {
        Ok(n) => {
            *count = n;
            0
        }
        Err(e) => {
            match e {
                CheckError::Read(r) => *offset = r.offset().number(),
                CheckError::Shared(o) | CheckError::OutOfOrder(o) | CheckError::BadPlace(o) => {
                    *offset = o.number();
                }
                CheckError::Room | CheckError::WalkFull => {}
            }
            e.number() // of a check
        }
    }
}

// The file's sector and size and the volume's stamp: each cell is stored, whatever is answered; of a refusal with 0.
pub fn store_limits(
    answer: Result<Limits, LimitsError>,
    sector: &mut u32,
    size: &mut u32,
    stamp: &mut u64,
) -> u32
    ensures number { result ≡ (loading.answered (loading.told answer)).number }
    ensures sector { sector.new ≡ (loading.answered (loading.told answer)).sector.0 }
    ensures size { size.new ≡ (loading.answered (loading.told answer)).size }
    ensures stamp { stamp.new ≡ (loading.answered (loading.told answer)).stamp }
{
    match answer {
        Ok(limits) => {
            *sector = limits.sector.number();
            *size = limits.size;
            *stamp = limits.stamp;
            0
        }
        Err(e) => {
            *sector = 0;
            *size = 0;
            *stamp = 0;
            e.number()
        }
    }
}
