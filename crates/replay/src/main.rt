// Replays answers that the Rust original gave, with no Rust at hand: each record of data/answers is a request and
// the Rust's answer to it, and the front door is asked the same. Prints how many records there were of each kind, how
// many requests were made under a number that is no rule, how many names were sought, and how many of all these were
// answered otherwise.
//
// The file is made by oracle/record. It is a row of blocks of 65,536 bytes, the last one shorter; a block is a row
// of records, and zeros fill it where no record fits. A record is its length in two bytes and then so many bytes,
// of which the first is its kind. Numbers are little-endian, of four bytes where nothing else is said; what an
// answer has no value for is 0.
//
//   l, p  a lookup, a path:
//         1 first sector of the window, 5 and 9 sector and size of the table, 13 length of what is sought (two
//         bytes), 15 number of the answer, then of the entry 19 left, 23 right, 27 sector, 31 size, 35 attributes,
//         39 length of the name, 43 place in the window; 47 offset, 51 headers read; 55 what is sought, and after
//         it the window. A path's answer has no headers, and an offset only with 23 and 24. The Rust has rule one
//         alone; each is asked once more under a number that is no rule.
//   n     the names of a table that the Rust wrote, as its walk lists them:
//         1 first sector of the window, 5 and 9 sector and size of the table, 13 how many names (two bytes); 15 for
//         each name the number of the Rust's lookup, 0 or 22, then the listed entry as in a lookup, its place, its
//         offset, and the headers that the Rust's lookup read: forty bytes; after them the window.
//   w     a walk:
//         1 first sector, 5 and 9 sector and size of the table, 13 how many are listed (two bytes), 15 number, 19
//         offset of a fault; 23 the offsets listed, and after them the window. The list has 256 places.
//   t     a table:
//         1 first sector, 5 number, 9 number of the refused entry, 13 size, 17 next free sector, 21 count (two
//         bytes), 23 bytes of names (two bytes); 25 for each entry the start of its name, then for each its length,
//         then for each its size, then for each its kind in one byte, then the names, then the table's bytes up to
//         its size. There are at most 64 entries, and the output has 16,384 bytes.
//   i     an image's plan:
//         1 number, 5 count of directories (two bytes), 7 count of entries (two bytes), 9 bytes of names (two
//         bytes); 11 for each directory the place of its first entry, then for each how many it has, then for each
//         entry the start of its name, for each the length, for each its value in eight bytes, for each its kind in
//         one byte, then the names; then, where it is planned, for each directory its size, for each its table's
//         sector, and for each entry its sector. There are at most 16 directories and 2,112 entries. Which entry or
//         directory is refused and the next free sector are not in it: the Rust does not tell.
//   d     a descriptor written:
//         1 sector and 5 size of the root, 9 stamp (eight bytes), 17 the descriptor's 2,048 bytes.
//   v     a descriptor read:
//         1 number, 5 sector and 9 size of the root, 13 stamp (eight bytes), 21 the bytes that are read.
// An answer is recorded by its number, 0 where nothing is refused, and compared by it: so the modules take numbers,
// with 0 for a value that a refusal has not. They lend the front door arrays of the greatest size that a record has.
#![tactic(auto)]

mod names; // recorded names of tables, under both rules
mod plan; // recorded plans
mod read; // recorded lookups, paths and walks
mod record; // what stands at a place of a record
mod table; // recorded tables
mod volume; // recorded descriptors

use record::Record;
use std::alloc::Global;
use std::io::Read;
use std::{fs, io};

// How many records of each kind were run, and how many differ.
#[derive(Clone, Copy, Default)]
struct Tally {
    tables: u32,
    plans: u32,
    lookups: u32,
    paths: u32,
    walks: u32,
    written: u32,
    volumes: u32,
    no_rule: u32,
    names: u32,
    differ: u32,
}

// One more of a kind, up to 1,000,000,000.
fn count(kind: &mut u32) {
    if *kind < 1_000_000_000 {
        *kind += 1;
    }
}

impl Tally {
    // One answer more, the same as the recorded one or not.
    fn note(&mut self, same: bool) {
        if !same {
            count(&mut self.differ);
        }
    }

    // One request more under a number that is no rule.
    fn note_refused(&mut self, same: bool) {
        count(&mut self.no_rule);
        self.note(same);
    }

    // The names of a record.
    fn run_names(&mut self, r: Record<'_>) {
        let n = r.short_at(13);
        let w = r.rest(15 + 40 * n);
        for i in 0..n {
            count(&mut self.names);
            self.note(names::same_name(r, w, i));
        }
    }

    // One record more.
    fn run(&mut self, r: Record<'_>) {
        match r.bytes.first() {
            Some(b't') => {
                count(&mut self.tables);
                self.note(table::same_table(r));
            }
            Some(b'i') => {
                count(&mut self.plans);
                self.note(plan::same_plan(r));
            }
            Some(b'l') => {
                count(&mut self.lookups);
                self.note(read::same_lookup(r));
                self.note_refused(read::refused_lookup(r));
            }
            Some(b'p') => {
                count(&mut self.paths);
                self.note(read::same_path(r));
                self.note_refused(read::refused_path(r));
            }
            Some(b'w') => {
                count(&mut self.walks);
                self.note(read::same_walk(r));
            }
            Some(b'd') => {
                count(&mut self.written);
                self.note(volume::same_written(r));
            }
            Some(b'v') => {
                count(&mut self.volumes);
                self.note(volume::same_read(r));
            }
            Some(b'n') => self.run_names(r),
            _ => self.note(false),
        }
    }

    // The records of a block, up to its end or to a length of 0.
    fn run_block(&mut self, block: Record<'_>) {
        let mut at = 0;
        // No index is counted: a record's length says where the next one starts.
        while at < block.bytes.len() {
            let n = block.short_at(at);
            if n == 0 {
                return;
            }
            if block.bytes.len() - at < n + 2 {
                return self.note(false);
            }
            self.run(block.inner(at + 2, n));
            at += n + 2;
        }
    }

    // The next block of the file.
    fn run_next(&mut self, alloc: Global, file: &mut impl Read) -> io::Result<()> {
        let mut kept = Vec::with_capacity(alloc, 65536)?;
        file.by_ref().take(65536).read_to_end(&mut kept)?;
        self.run_block(Record {
            bytes: kept.as_slice(),
        });
        Ok(())
    }
}

fn main(rt: HostRuntime) -> io::Result<()> {
    let Ok(mut file) = fs::open(&rt, "answers") else {
        return println!(rt; "not opened");
    };
    let mut t = Tally::default();
    for _ in 0..32 {
        t.run_next(rt.alloc(), &mut file)?;
    }
    let said = [
        (t.tables, "tables"),
        (t.plans, "plans"),
        (t.lookups, "lookups"),
        (t.paths, "paths"),
        (t.walks, "walks"),
        (t.written, "descriptors written"),
        (t.volumes, "descriptors read"),
        (t.no_rule, "under no rule"),
        (t.names, "names under both rules"),
        (t.differ, "differ"),
    ];
    for (n, what) in said {
        println!(rt; "{n} {what}")?;
    }
    Ok(())
}
