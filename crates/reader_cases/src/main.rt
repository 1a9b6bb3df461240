// What a reader answers over an image of data/, of which a file holds the bytes from sector 32 on.
//
// Each of the first eight functions opens a reader, moves it and asks it one thing. What stands after them has no
// reader, goes by their answers, and writes them out.
#![tactic(auto)]

ghost use Rattle.std.specs.Prelude.{◌≡◌};
ghost use Rattle.units.specs.Lent.{IsPart};
ghost use Rattle.read_entry.specs.Entry as reading;
ghost use Rattle.read_lookup.specs.Lookup as lookup;
ghost use Rattle.read_path.specs.Path as following;
ghost use Rattle.read_place.specs.Place as place;

use read_entry::{Placed, ReadError, Table};
use read_lookup::{Found, LookupError};
use read_path::PathError;
use read_place::EnterError;
use reader::Reader;
use std::io::Read as _;
use std::{fs, io};
use units::{Offset, Region, Sector};

// (Rules are numbers here as for a reader; the cases ask under 3 too, which is none.)
fn find(t: Table, name: &[u8], rule: u32) -> Result<Found, LookupError>
    ensures { let t = t.entry in
        lookup.told result ≡ lookup.lookup_of rule t.window.now t.first t.region name.now }
{
    Reader::new(t.window, t.first, t.region).look_up(name, rule)
}

fn find_within(t: Table, inner: Region, name: &[u8], rule: u32) -> Result<Found, LookupError>
    ensures { let t = t.entry in
        lookup.told result ≡ lookup.lookup_of rule t.window.now t.first inner name.now }
{
    Reader::new(t.window, t.first, t.region)
        .within(inner)
        .look_up(name, rule)
}

fn find_by_path(t: Table, path: &[u8], rule: u32) -> Result<Placed, PathError>
    ensures { let t = t.entry in
        following.told result ≡ following.path_of rule t.window.now t.first t.region path.now }
{
    Reader::new(t.window, t.first, t.region).find_path(path, rule)
}

fn entry_at(t: Table, at: Offset) -> Result<Option<Placed>, ReadError>
    ensures { let t = t.entry in
        reading.told result ≡ reading.read_at t.window.now t.first t.region at.0 }
{
    Reader::new(t.window, t.first, t.region).placed(at).entry()
}

fn name_at<'a>(t: Table<'a>, at: Offset) -> &'a [u8]
    ensures { let t = t.entry in
        IsPart result t.window (place.name_at t.window.now t.first t.region at.0) }
{
    Reader::new(t.window, t.first, t.region).placed(at).name()
}

fn enter_at(t: Table, at: Offset) -> Result<Region, EnterError>
    ensures { let t = t.entry in
        place.entered result ≡ place.table_at t.window.now t.first t.region at.0 }
{
    Reader::new(t.window, t.first, t.region).placed(at).enter()
}

fn left_at(t: Table, at: Offset) -> Result<Option<Offset>, ReadError>
    ensures { let t = t.entry in
        place.linked result ≡ place.left_at t.window.now t.first t.region at.0 }
{
    Reader::new(t.window, t.first, t.region).placed(at).left()
}

fn right_at(t: Table, at: Offset) -> Result<Option<Offset>, ReadError>
    ensures { let t = t.entry in
        place.linked result ≡ place.right_at t.window.now t.first t.region at.0 }
{
    Reader::new(t.window, t.first, t.region).placed(at).right()
}

// (A refusal is shown by its number, whatever error has it; so is it below in `show_stop`.)
fn show_refusal(rt: &impl Print, number: u32) -> io::Result<()> {
    print!(rt; "refused {number}")
}

// Values are written by their parts, here and below, with no Display: the form is this program's own.
fn show_region(rt: &impl Print, region: Region) -> io::Result<()> {
    let number = region.sector.number();
    let size = region.size;
    print!(rt; "{number} {size}")
}

fn show_entry(rt: &impl Print, t: Table, at: Offset) -> io::Result<()> {
    match entry_at(t, at) {
        Ok(Some(entry)) => {
            rt.write_all(name_at(t, at))?;
            print!(rt; " ")?;
            show_region(rt, entry.header.region())
        }
        Ok(None) => print!(rt; "no entry"),
        Err(e) => show_refusal(rt, e.number()),
    }
}

fn show_link(rt: &impl Print, a: Result<Option<Offset>, ReadError>) -> io::Result<()> {
    match a {
        Ok(Some(offset)) => {
            let number = offset.number();
            print!(rt; "{number}")
        }
        Ok(None) => print!(rt; "absent"),
        Err(e) => show_refusal(rt, e.number()),
    }
}

fn show_table(rt: &impl Print, a: Result<Region, EnterError>) -> io::Result<()> {
    match a {
        Ok(region) => show_region(rt, region),
        Err(e) => show_refusal(rt, e.number()),
    }
}

// A line for an offset of a table: the entry, where its links lead, and the table of a directory.
fn show_place(rt: &impl Print, t: Table, offset: u32) -> io::Result<()> {
    let at = Offset::new(offset);
    print!(rt; "{offset}: ")?;
    show_entry(rt, t, at)?;
    print!(rt; "; left ")?;
    show_link(rt, left_at(t, at))?;
    print!(rt; "; right ")?;
    show_link(rt, right_at(t, at))?;
    print!(rt; "; table ")?;
    show_table(rt, enter_at(t, at))?;
    print!(rt; "\n")
}

// What a lookup answers.
fn show_finding(rt: &impl Print, a: Result<Found, LookupError>) -> io::Result<()> {
    match a {
        Ok(found) => {
            let number = found.offset.number();
            let headers = found.headers;
            print!(rt; "at {number} after {headers}, ")?;
            show_region(rt, found.entry.header.region())
        }
        Err(e) => {
            show_refusal(rt, e.number())?;
            if let LookupError::DoesNotExist(headers) = e {
                print!(rt; " after {headers}")?;
            }
            Ok(())
        }
    }
}

fn show_looked(rt: &impl Print, name: &[u8], a: Result<Found, LookupError>) -> io::Result<()> {
    rt.write_all(name)?;
    print!(rt; ": ")?;
    show_finding(rt, a)?;
    print!(rt; "\n")
}

fn show_stop(rt: &impl Print, number: u32) -> io::Result<()> {
    show_refusal(rt, number)?;
    print!(rt; "\n")
}

// A name in the directory at an offset of a table.
fn show_within(rt: &impl Print, t: Table, at: Offset, name: &[u8], rule: u32) -> io::Result<()> {
    match enter_at(t, at) {
        Ok(inner) => show_looked(rt, name, find_within(t, inner, name, rule)),
        Err(e) => show_stop(rt, e.number()),
    }
}

// A path of two names, as a loader goes it.
fn show_path(rt: &impl Print, t: Table, dir: &[u8], name: &[u8], rule: u32) -> io::Result<()> {
    match find(t, dir, rule) {
        Ok(found) => show_within(rt, t, found.offset, name, rule),
        Err(e) => show_stop(rt, e.number()),
    }
}

// A path in one call.
// (Not one function with `show_looked`: a path answers no offset and no headers.)
fn show_found(rt: &impl Print, path: &[u8], a: Result<Placed, PathError>) -> io::Result<()> {
    rt.write_all(path)?;
    print!(rt; ": ")?;
    match a {
        Ok(entry) => show_region(rt, entry.header.region())?,
        Err(e) => show_refusal(rt, e.number())?,
    }
    print!(rt; "\n")
}

// Names and paths under the rule of a number. The rules differ in the root, left of `art` and right of `media`, and
// in the directory `media`, right of `default.xbe`.
fn show_rule(rt: &impl Print, root: Table, rule: u32) -> io::Result<()> {
    println!(rt; "rule {rule}")?;
    show_looked(rt, b"aaa", find(root, b"aaa", rule))?;
    show_looked(rt, b"zebra", find(root, b"zebra", rule))?;
    show_path(rt, root, b"media", b"zebra", rule)?;
    show_within(rt, root, Offset::new(0), b"Default.xbe", rule)?;
    show_found(rt, b"media/zebra", find_by_path(root, b"media/zebra", rule))?;
    show_found(rt, b"/", find_by_path(root, b"/", rule))
}

fn show_root(rt: &impl Print, root: Table) -> io::Result<()> {
    for offset in [0, 20, 40, 64] {
        show_place(rt, root, offset)?;
    }
    show_looked(rt, b"ART", find(root, b"ART", 1))?;
    show_looked(rt, b"aaa", find(root, b"aaa", 1))?;
    show_looked(rt, b"zebra", find(root, b"zebra", 1))?;
    show_path(rt, root, b"media", b"Default.xbe", 1)?;
    show_path(rt, root, b"media", b"zebra", 1)?;
    show_path(rt, root, b"art", b"zebra", 1)?;
    show_found(
        rt,
        b"/Media/default.XBE",
        find_by_path(root, b"/Media/default.XBE", 1),
    )?;
    show_found(rt, b"art/zebra", find_by_path(root, b"art/zebra", 1))?;
    show_found(rt, b"/", find_by_path(root, b"/", 1))?;
    show_found(rt, b"media/zebra", find_by_path(root, b"media/zebra", 1))?;
    show_rule(rt, root, 2)?;
    show_rule(rt, root, 3)
}

fn show_image(rt: &impl Print, window: &[u8]) -> io::Result<()> {
    match layout_volume::read_descriptor(window) {
        Ok(descriptor) => {
            let first = Sector::new(32);
            let region = descriptor.root;
            show_root(
                rt,
                Table {
                    window,
                    first,
                    region,
                },
            )
        }
        Err(e) => show_stop(rt, e.number()),
    }
}

fn main(rt: HostRuntime) -> io::Result<()> {
    let Ok(file) = fs::open(&rt, "tree") else {
        return println!(rt; "not opened");
    };
    let mut kept = Vec::with_capacity(rt.alloc(), 65536)?;
    file.take(65536).read_to_end(&mut kept)?;
    show_image(&rt, kept.as_slice())
}
