// Recorded names of tables: each is sought under both rules, by itself and as a path of one part, and the answers are
// compared. crates/replay/src/main.rt describes the records.
ghost use Rattle.std.specs.Prelude.{◌<◌};

use crate::read::{is_entry, is_looked, table_at};
use crate::record::Record;
use xdvdfs::{Found, LookupError, PathError, Placed, Table};

// Whether a lookup under rule two gives the listed entry; and where the Rust finds it after as many headers.
fn is_listed(a: Record<'_>, answer: Result<Found, LookupError>) -> bool {
    match answer {
        Ok(found) => is_entry(a, found.entry)
            && a.is(32, found.offset.number())
            && (a.is(0, 22) || a.is(36, found.headers)),
        Err(_) => false,
    }
}

// Whether a lookup under rule one answers as the Rust's: the listed entry, or 22.
fn is_found_or_lost(a: Record<'_>, answer: Result<Found, LookupError>) -> bool {
    match answer {
        Err(LookupError::DoesNotExist(headers)) => a.is(0, 22) && a.is(36, headers),
        _ => is_looked(a, answer),
    }
}

// Whether a path under a rule gives the listed entry, or 22 where that is the number.
fn is_path_to(a: Record<'_>, answer: Result<Placed, PathError>, n: u32) -> bool {
    match answer {
        Ok(entry) => n == 0 && is_entry(a, entry),
        Err(PathError::DoesNotExist) => n == 22,
        Err(_) => false,
    }
}

// Whether a name of a table is found as recorded, under rule two and under rule one.
fn is_same(a: Record<'_>, table: Table<'_>, name: &[u8]) -> bool {
    is_listed(a, xdvdfs::look_up(table, name, 2))
        && is_path_to(a, xdvdfs::find_path(table, name, 2), 0)
        && is_found_or_lost(a, xdvdfs::look_up(table, name, 1))
        && is_path_to(a, xdvdfs::find_path(table, name, 1), a.number_at(0))
}

// The i-th name of a record, in its window.
pub fn same_name(r: Record<'_>, w: &[u8], i: usize) -> bool
    requires { i < 65536 }
{
    let a = r.inner(15 + 40 * i, 40);
    let name = Record { bytes: w }.part(14 + a.short_at(28), a.short_at(24));
    is_same(a, table_at(r, w), name)
}
