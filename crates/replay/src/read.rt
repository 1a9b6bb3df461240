// Recorded lookups, paths and walks: the front door is asked the same, and its whole answer compared.
// crates/replay/src/main.rt describes the records.
ghost use Rattle.std.specs.Prelude.{◌<◌, ◌≤◌, length};

use crate::record::Record;
use xdvdfs::{Found, LookupError, PathError, Placed, Region, Sector, Table, WalkError};

// The recorded table, in the window that the record ends with.
pub fn table_at<'a>(r: Record<'a>, window: &'a [u8]) -> Table<'a> {
    Table {
        window,
        first: Sector::new(r.number_at(1)),
        region: Region {
            sector: Sector::new(r.number_at(5)),
            size: r.number_at(9),
        },
    }
}

// The ten numbers of a recorded answer: 0 its number, then of the entry 4 left, 8 right, 12 sector, 16 size, 20
// attributes, 24 length of the name, 28 place in the window; 32 offset, 36 headers read.
fn numbers_of(r: Record<'_>) -> Record<'_> {
    r.inner(15, 40)
}

// Whether the recorded entry is this one.
pub fn is_entry(a: Record<'_>, entry: Placed) -> bool {
    let h = entry.header;
    a.is(4, u32::from(h.left.number()))
        && a.is(8, u32::from(h.right.number()))
        && a.is(12, h.sector.number())
        && a.is(16, h.size)
        && a.is(20, u32::from(h.attributes))
        && a.is(24, u32::from(h.name_len))
        && a.number_at(28) as u64 == entry.place as u64
}

// Whether the recorded answer is this refusal, with its offset and its headers.
fn is_refusal(a: Record<'_>, n: u32, offset: u32, headers: u32) -> bool {
    a.is(0, n) && layout_bytes::all_are(a.part(4, 28), 0) && a.is(32, offset) && a.is(36, headers)
}

// Whether the recorded lookup is this one.
pub fn is_looked(a: Record<'_>, answer: Result<Found, LookupError>) -> bool {
    match answer {
        Ok(found) => a.is(0, 0)
            && is_entry(a, found.entry)
            && a.is(32, found.offset.number())
            && a.is(36, found.headers),
        Err(e @ LookupError::DoesNotExist(headers)) => is_refusal(a, e.number(), 0, headers),
        Err(LookupError::Read(e)) => is_refusal(a, e.number(), e.offset().number(), 0),
        Err(e) => is_refusal(a, e.number(), 0, 0),
    }
}

// Whether the recorded path is this one.
fn is_followed(a: Record<'_>, answer: Result<Placed, PathError>) -> bool {
    match answer {
        Ok(entry) => a.is(0, 0) && is_entry(a, entry) && a.is(32, 0) && a.is(36, 0),
        Err(PathError::Read(e)) => is_refusal(a, e.number(), e.offset().number(), 0),
        Err(e) => is_refusal(a, e.number(), 0, 0),
    }
}

// The table of a recorded lookup or path, and what is sought.
fn sought_in(r: Record<'_>) -> (Table<'_>, &[u8]) {
    let n = r.short_at(13);
    (table_at(r, r.rest(55 + n)), r.part(55, n))
}

// (A lookup and a path by themselves, here and below: their answers are of different types.)
pub fn same_lookup(r: Record<'_>) -> bool {
    let (table, name) = sought_in(r);
    is_looked(numbers_of(r), xdvdfs::look_up(table, name, 1))
}

pub fn same_path(r: Record<'_>) -> bool {
    let (table, path) = sought_in(r);
    is_followed(numbers_of(r), xdvdfs::find_path(table, path, 1))
}

// Whether what is recorded is refused under a number that is no rule.
pub fn refused_lookup(r: Record<'_>) -> bool {
    let (table, name) = sought_in(r);
    matches!(xdvdfs::look_up(table, name, 3), Err(LookupError::BadRule))
}

pub fn refused_path(r: Record<'_>) -> bool {
    let (table, path) = sought_in(r);
    matches!(xdvdfs::find_path(table, path, 3), Err(PathError::BadRule))
}

fn is_walk(r: Record<'_>, n: u32, offset: u32, list: &[u32]) -> bool
    requires { length list.now ≤ 65536 }
{
    r.short_at(13) == 0 && r.is(15, n) && r.is(19, offset) && r.is_row(23, list, 0, 0)
}

pub fn same_walk(r: Record<'_>) -> bool {
    let n = r.short_at(13);
    let mut list = [7u32; 256];
    let mut scratch = [7u32; 257];
    let table = table_at(r, r.rest(23 + 4 * n));
    match xdvdfs::walk(table, &mut list, &mut scratch) {
        Ok(count) => r.is(15, 0) && r.is(19, 0) && count == n && r.is_row(23, &list, n, 0),
        Err(WalkError::Read(e)) => is_walk(r, e.number(), e.offset().number(), &list),
        Err(e) => is_walk(r, e.number(), 0, &list),
    }
}
