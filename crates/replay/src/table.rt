// Recorded tables: the front door writes the same list, and its whole answer and the bytes are compared.
// crates/replay/src/main.rt describes the records.
ghost use Rattle.std.specs.Prelude.{◌<◌, length};

use crate::record::Record;
use xdvdfs::{Entries, ListError, ListScratch, Names, Sector, Written};

// What the output holds at a place past the size: 0xff up to the next sector line, and what it held before, 0,
// after it.
fn filling(size: usize, i: usize) -> u8
    requires { size < 1000000 }
{
    if i < size.next_multiple_of(2048) {
        return 255;
    }
    0
}

// Whether the output holds the recorded bytes and nothing else.
fn is_table(out: &[u8], table: &[u8]) -> bool
    requires { length table.now < 1000000 }
{
    for (i, x) in out.iter().enumerate() {
        let wanted = if i < table.len() {
            table[i]
        } else {
            filling(table.len(), i)
        };
        if *x != wanted {
            return false;
        }
    }
    true
}

// Whether the recorded answer is this one; a table's bytes are compared too.
fn is_written(r: Record<'_>, n: u32, entry: u32, size: u32, next: u32) -> bool {
    r.is(5, n) && r.is(9, entry) && r.is(13, size) && r.is(17, next)
}

fn answer_is(r: Record<'_>, answer: Result<Written, ListError>) -> bool {
    match answer {
        Ok(table) => is_written(r, 0, 0, table.size, table.free.number()),
        Err(ListError::Refused(cause, i)) => is_written(r, cause.number(), i, 0, 0),
        Err(e) => is_written(r, e.number(), 0, 0, 0),
    }
}

// Writes the recorded list of n entries.
fn write_recorded(r: Record<'_>, n: usize, entries: Entries<'_>, out: &mut [u8]) -> bool
    requires { n < 65536 }
{
    let mut left = [7u16; 64];
    let mut right = [7u16; 64];
    let mut parent = [7u16; 64];
    let mut height = [7u8; 64];
    let mut key = [7u32; 64];
    let mut order = [7u16; 64];
    let mut place = [7u16; 64];
    let mut scratch = ListScratch {
        left: &mut left,
        right: &mut right,
        parent: &mut parent,
        height: &mut height,
        key: &mut key,
        order: &mut order,
        place: &mut place,
    };
    let first = Sector::new(r.number_at(1));
    answer_is(
        r,
        xdvdfs::write_list(n as u32, entries, first, &mut scratch, out),
    )
}

pub fn same_table(r: Record<'_>) -> bool {
    let n = r.short_at(21);
    let names = r.short_at(23);
    let mut start = [0u32; 64];
    let mut len = [0u32; 64];
    let mut size = [0u32; 64];
    let mut out = [0u8; 16384];
    r.fill(25, &mut start);
    r.fill(25 + 4 * n, &mut len);
    r.fill(25 + 8 * n, &mut size);
    let entries = Entries {
        names: Names {
            bytes: r.part(25 + 13 * n, names),
            start: &start,
            len: &len,
        },
        size: &size,
        kind: r.part(25 + 12 * n, n),
    };
    let table = r.part(25 + 13 * n + names, 65536);
    write_recorded(r, n, entries, &mut out) && is_table(&out, table)
}
