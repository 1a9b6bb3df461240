// What the limits loader answers, a line for each case: over images of data/, of each of which a file holds the bytes
// from sector 32 on, and over windows of one that is there whole.
#![tactic(auto)]

use std::io::Read;
use std::{fs, io};
use units::Sector;

// The stamp of most images: 2026-11-16T12:00:00Z.
const STAMP: u64 = 134393040000000000;

const DAY: u64 = 864000000000;

// The last time, and the greatest age that there is.
const LAST: u64 = 18446744073709551615;

fn show_label(rt: &impl Print, label: &str) -> io::Result<()> {
    print!(rt; "{label}: ")
}

// A case over a file of data/.
fn show_file(
    rt: &HostRuntime,
    label: &str,
    name: &str,
    path: &[u8],
    time: u64,
    age: u64,
) -> io::Result<()> {
    show_label(rt, label)?;
    let Ok(file) = fs::open(rt, name) else {
        return println!(rt; "not opened");
    };
    let mut kept = Vec::with_capacity(rt.alloc(), 65536)?;
    file.take(65536).read_to_end(&mut kept)?;
    loading::show_limits(rt, kept.as_slice(), Sector::new(32), path, time, age)
}

// A case over a file of data/ at that stamp.
fn show_now(rt: &HostRuntime, label: &str, name: &str, path: &[u8]) -> io::Result<()> {
    show_file(rt, label, name, path, STAMP, 0)
}

// The date of a file of data/, by its file `limits`.
fn show_date(rt: &HostRuntime, label: &str, name: &str, time: u64, age: u64) -> io::Result<()> {
    show_file(rt, label, name, b"limits", time, age)
}

// A path in the image `dated`, at its stamp.
fn show_path(rt: &HostRuntime, label: &str, path: &[u8]) -> io::Result<()> {
    show_now(rt, label, "dated", path)
}

// A stamp, and times beside it.
fn show_dates(rt: &HostRuntime) -> io::Result<()> {
    show_date(rt, "time is the stamp, age 0", "dated", STAMP, 0)?;
    show_date(rt, "one unit after, age 0", "dated", STAMP + 1, 0)?;
    show_date(rt, "one unit before, any age", "dated", STAMP - 1, LAST)?;
    show_date(rt, "a day after, age a day", "dated", STAMP + DAY, DAY)?;
    show_date(rt, "one unit more", "dated", STAMP + DAY + 1, DAY)
}

// No date, the first and the last.
fn show_edges(rt: &HostRuntime) -> io::Result<()> {
    show_date(rt, "no date at time 0", "no_date", 0, 0)?;
    show_date(rt, "stamp 1, age exact", "first_date", LAST, LAST - 1)?;
    show_date(rt, "stamp 1, too old", "first_date", LAST, LAST - 2)?;
    show_date(rt, "stamp 2^64-1, age 0", "last_date", LAST, 0)?;
    show_date(
        rt,
        "stamp 2^64-1, one unit before",
        "last_date",
        LAST - 1,
        LAST,
    )
}

fn show_files(rt: &HostRuntime) -> io::Result<()> {
    show_path(rt, "upper case", b"///LIMITS/")?;
    show_now(rt, "root size rounded", "rounded", b"limits")?;
    show_path(rt, "in a directory", b"axes/x.lim")?;
    show_path(rt, "an empty file at sector 0", b"empty")?;
    show_path(rt, "all attributes but 0x10", b"axes/y.lim")?;
    show_now(rt, "behind a link of 255", "sixty", b"file48")
}

fn show_paths(rt: &HostRuntime) -> io::Result<()> {
    show_path(rt, "directory", b"axes")?;
    show_path(rt, "directory with 0x20", b"/axes/z.lim/")?;
    show_path(rt, "missing", b"axes/limits")?;
    show_path(rt, "a part that is no directory", b"limits/x.lim")?;
    show_path(rt, "no part", b"")?;
    show_path(rt, "byte above 127", b"limit\x80")
}

fn show_faults(rt: &HostRuntime) -> io::Result<()> {
    show_now(rt, "first mark differs", "first_mark", b"a")?;
    show_now(rt, "second mark differs", "second_mark", b"a")?;
    show_now(rt, "root size 0", "size_zero", b"a")?;
    show_now(rt, "offset outside the table", "link_outside", b"c")?;
    show_now(rt, "table cut short", "cut_in_table", b"c")?;
    show_now(rt, "links in a ring", "self_loop", b"0")
}

// In the same tables: what a lookup does not come to is no fault.
fn show_beside_faults(rt: &HostRuntime) -> io::Result<()> {
    show_now(rt, "before the offset outside", "link_outside", b"a")?;
    show_now(rt, "before the cut", "cut_in_table", b"a")?;
    show_now(rt, "before the ring closes", "self_loop", b"a")
}

// Two faults in one call: the earlier of the order is answered.
fn show_orders(rt: &HostRuntime) -> io::Result<()> {
    show_file(rt, "20 before 40", "second_mark", b"", 0, 0)?;
    show_file(rt, "40 before 2", "no_date", b"\xff", LAST, 0)?;
    show_file(rt, "41 before 28", "dated", b"", 0, 0)?;
    show_file(rt, "42 before 22", "dated", b"missing", LAST, 0)?;
    show_file(rt, "42 before 43", "dated", b"axes", STAMP + 1, 0)
}

// The same among a path's.
fn show_path_orders(rt: &HostRuntime) -> io::Result<()> {
    show_now(rt, "2 before 21", "size_zero", b"\xff")?;
    show_now(rt, "28 before 21", "size_zero", b"")?;
    show_now(rt, "27 before 22", "dated", b"limits/missing")
}

// A case over a window of an image.
fn show_window(rt: &impl Print, label: &str, w: &[u8], first: u32) -> io::Result<()> {
    show_label(rt, label)?;
    loading::show_limits(rt, w, Sector::new(first), b"c", STAMP, 0)
}

// The first n bytes; all where there are fewer.
fn front(w: &[u8], n: usize) -> &[u8] {
    &w[..n.min(w.len())]
}

// The bytes from a place on; none where there are fewer before it.
fn rest(w: &[u8], from: usize) -> &[u8] {
    w.get(from..).unwrap_or(&[])
}

// Windows of an image's first 34 sectors: sector 31 starts at 63,488, sector 32 at 65,536, sector 33 at 67,584.
fn show_windows(rt: &impl Print, w: &[u8]) -> io::Result<()> {
    show_window(rt, "window from 0", w, 0)?;
    show_window(rt, "window from 31", rest(w, 63488), 31)?;
    show_window(rt, "window from 32", rest(w, 65536), 32)?;
    show_window(rt, "window from 33", rest(w, 67584), 33)?;
    show_window(rt, "from 31, said to be from 32", rest(w, 63488), 32)?;
    show_window(rt, "from 32, said to be from 31", rest(w, 65536), 31)?;
    show_window(rt, "from 0, cut in the second mark", front(w, 67583), 0)?;
    show_window(rt, "no bytes, from 32", front(w, 0), 32)
}

// A window of n bytes from sector 32 on.
fn show_cut(rt: &impl Print, w: &[u8], n: usize) -> io::Result<()> {
    print!(rt; "{n}")?;
    show_window(rt, " bytes from 32", front(w, n), 32)
}

// Windows that end before each byte of the second mark, and one that ends after its last.
fn show_cuts(rt: &impl Print, w: &[u8]) -> io::Result<()> {
    for n in 2028..=2048 {
        show_cut(rt, w, n)?;
    }
    Ok(())
}

// The image that is there whole.
fn show_whole(rt: &HostRuntime) -> io::Result<()> {
    let Ok(file) = fs::open(rt, "whole") else {
        return println!(rt; "not opened");
    };
    let mut kept = Vec::with_capacity(rt.alloc(), 69632)?;
    file.take(69632).read_to_end(&mut kept)?;
    show_windows(rt, kept.as_slice())?;
    show_cuts(rt, rest(kept.as_slice(), 65536))
}

fn main(rt: HostRuntime) -> io::Result<()> {
    show_dates(&rt)?;
    show_edges(&rt)?;
    show_files(&rt)?;
    show_paths(&rt)?;
    show_faults(&rt)?;
    show_beside_faults(&rt)?;
    show_orders(&rt)?;
    show_path_orders(&rt)?;
    show_whole(&rt)
}
