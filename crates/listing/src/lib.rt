// The listing of an image's root directory, written to standard output: a line for each entry, and the number of
// entries; or the refusal's number alone.
#![tactic(auto)]

use read_entry::Table;
use std::io;
use units::{Offset, Sector};

// A line of the listing: `d` for a directory or `f`, the sector, the size and the name.
// (Written by its parts and with no Display: the line is this program's own, and the name is bytes.)
fn show_entry(rt: &impl Print, table: Table<'_>, offset: u32) -> io::Result<()> {
    let Ok(Some(entry)) = table.read_at(Offset::new(offset)) else {
        return Ok(());
    };
    let header = entry.header;
    let kind = if header.is_directory() { "d" } else { "f" };
    print!(rt; "{} {} {} ", kind, header.sector.number(), header.size)?;
    rt.write_all(entry.name_in(table.window))?;
    println!(rt; "")
}

// A refusal is shown by its number, whatever error has it. (reader_cases has the like within a line; no crate is
// shared by the two.)
fn show_refusal(rt: &impl Print, n: u32) -> io::Result<()> {
    println!(rt; "refused {n}")
}

// The walk of a table, and then its lines: nothing is written before the walk is known to end well.
// (Arrays, as `walk` is lent slices, and a listing has no allocator.)
fn list_table(rt: &impl Print, table: Table<'_>) -> io::Result<()> {
    let mut list = [0u32; 4096];
    let mut scratch = [0u32; 4097];
    match read_walk::walk(table, &mut list, &mut scratch) {
        Ok(n) => {
            for offset in list.iter().take(n) {
                show_entry(rt, table, *offset)?;
            }
            println!(rt; "entries {n}")
        }
        Err(e) => show_refusal(rt, e.number()),
    }
}

// Lists the root directory of an image, of which the window holds the bytes from sector 32 on.
pub fn list_image(rt: &impl Print, w: &[u8]) -> io::Result<()> {
    match layout_volume::read_descriptor(w) {
        Ok(d) => {
            let table = Table {
                window: w,
                first: Sector::new(32),
                region: d.root,
            };
            list_table(rt, table)
        }
        Err(e) => show_refusal(rt, e.number()),
    }
}
