// A small reader for a loader: it holds a window of image bytes, the number of the window's first sector, a
// directory table, and a position, which is an offset in the table. It is plain data with a borrowed slice and is
// passed by value; a copy of it keeps its own position. No function asks anything of its caller.
//
// To load `media/default.xbe` out of a window w that starts with sector 32, where `root` is the region that
// `xdvdfs::read_descriptor` gives:
//
//     let r = Reader::new(w, Sector::new(32), root);
//     let media = r.look_up(b"media", 2)?;
//     let table = r.placed(media.offset).enter()?;
//     let file = r.within(table).look_up(b"default.xbe", 2)?.entry.header.region();
//
// and file.sector and file.size say where the bytes stand; 2 is the number of a rule, which says what links are
// absent. In one call, where only the entry is asked for:
//
//     let file = r.find_path(b"media/default.xbe", 2)?.header.region();
//
// A rule is a number here as in `xdvdfs`: every number is accepted.
//
// An answer holds no reader: `look_up`, `left` and `right` answer an offset, for `placed`, and `enter` a table, for
// `within`.
//
// To go through a table of a size other than 0, keep the offsets to come on a stack of your own, 0 at first: take
// one off, ask the reader placed there for `entry` and `name`, and put on what `right` and then `left` lead to.
// That lists what the walk lists (specs/Through.antt, and `walks_by_links` in proofs/Walk.antt). The position alone
// does not say what is next in a walk: where two links name one entry, the walk lists it twice, and what follows
// differs (there, `no_next`).
//
// Each function here calls one that takes the table; crate reader_cases is a program that uses a reader.
#![tactic(auto)]

ghost use Rattle.std.specs.Prelude.{◌≡◌};
ghost use Rattle.units.specs.Lent.{IsPart};
ghost use Rattle.read_entry.specs.Entry as reading;
ghost use Rattle.read_lookup.specs.Lookup as lookup;
ghost use Rattle.read_path.specs.Path as following;
ghost use Rattle.read_place.specs.Place as place;
ghost use Rattle.reader.specs.Reader.{opened, placed_at};

pub use layout_node::Header;
use read_entry::Table;
pub use read_entry::{Placed, ReadError};
pub use read_lookup::{Found, LookupError};
pub use read_path::PathError;
pub use read_place::EnterError;
pub use units::{Offset, Region, Sector};

// The table in its window, and the offset in it.
#[derive(Clone, Copy)]
pub struct Reader<'a> {
    table: Table<'a>,
    at: Offset,
}

impl<'a> Reader<'a> {
    // A reader of a table of a window, at offset 0.
    pub fn new(window: &'a [u8], first: Sector, table: Region) -> Reader<'a>
        ensures { result ≡ opened window.entry first table }
    {
        Reader {
            table: Table {
                window,
                first,
                region: table,
            },
            at: Offset::new(0),
        }
    }

    // The same reader at another offset of the table: any offset; `entry` answers 23 at one that is not below the
    // table's size.
    pub fn placed(self, at: Offset) -> Reader<'a>
        ensures { result ≡ placed_at self.entry at }
    {
        Reader { at, ..self }
    }

    // A reader of another table in the same window, at offset 0.
    pub fn within(self, table: Region) -> Reader<'a>
        ensures { result ≡ opened self.entry.table.window self.entry.table.first table }
    {
        Reader::new(self.table.window, self.table.first, table)
    }

    // Looks a name up in the table, from offset 0 on, wherever the position is, under the rule of a number. 29 where
    // no rule has the number, then 2, 21, then 22 with the number of headers read, 23, 24, 25. 22 is that the chain
    // came to an absent link or to no entry. Under rule one (1) links 0 and 255 are absent: an entry at or below a
    // link of 255 may have the name, and going by `left` and `right` leads to it. Under rule two (2) 0 and 65,535
    // are absent, as for the walk, `left` and `right`.
    pub fn look_up(self, name: &[u8], rule: u32) -> Result<Found, LookupError>
        ensures { let t = self.entry.table in
            lookup.told result ≡ lookup.lookup_of rule t.window.now t.first t.region name.now }
    {
        read_lookup::look_up(self.table, name, rule)
    }

    // Follows a path from the table, wherever the position is, each part under the rule of the number. 29, 2, 28,
    // then for each part what its lookup gives, and 27 where a part but the last is no directory. Under rule one (1)
    // links 0 and 255 are absent, and an entry at or below a link of 255 may have the part's name; under rule two (2)
    // 0 and 65,535 are.
    pub fn find_path(self, path: &[u8], rule: u32) -> Result<Placed, PathError>
        ensures { let t = self.entry.table in
            following.told result ≡ following.path_of rule t.window.now t.first t.region path.now }
    {
        read_path::find_path(self.table, path, rule)
    }

    // The entry at the position: its header and place in the window, or that there is none. 23, 24 with the offset.
    pub fn entry(self) -> Result<Option<Placed>, ReadError>
        ensures { let s = self.entry in let t = s.table in
            reading.told result ≡ reading.read_at t.window.now t.first t.region s.at.0 }
    {
        self.table.read_at(self.at)
    }

    // The name of the entry at the position, as that part of the window itself; where there is no entry, the empty
    // part at the window's start.
    pub fn name(self) -> &'a [u8]
        ensures { let s = self.entry in let t = s.table in
            IsPart result t.window (place.name_at t.window.now t.first t.region s.at.0) }
    {
        read_place::name_at(self.table, self.at)
    }

    // The table of the directory at the position. 22 where there is no entry, 23, 24 with the offset, 27 where the
    // entry is no directory.
    pub fn enter(self) -> Result<Region, EnterError>
        ensures { let s = self.entry in let t = s.table in
            place.entered result ≡ place.table_at t.window.now t.first t.region s.at.0 }
    {
        read_place::table_at(self.table, self.at)
    }

    // Where the left link of the entry at the position leads, or that it is absent: 0 and 0xffff are, as for the
    // walk. 23, 24 with the position.
    pub fn left(self) -> Result<Option<Offset>, ReadError>
        ensures { let s = self.entry in let t = s.table in
            place.linked result ≡ place.left_at t.window.now t.first t.region s.at.0 }
    {
        read_place::left_at(self.table, self.at)
    }

    // The same of the right link.
    pub fn right(self) -> Result<Option<Offset>, ReadError>
        ensures { let s = self.entry in let t = s.table in
            place.linked result ≡ place.right_at t.window.now t.first t.region s.at.0 }
    {
        read_place::right_at(self.table, self.at)
    }
}
