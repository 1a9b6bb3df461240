// What stands at a place of a table, an offset in it: the entry's name, the table of a directory, and the entries
// to the left and to the right.
#![tactic(auto)]

ghost use Rattle.std.specs.Prelude.{◌≡◌};
ghost use Rattle.units.specs.Lent.{IsPart};
ghost use Rattle.units.specs.Told.{number_of};
ghost use Rattle.read_entry.specs.Entry.{read_at};
ghost use Rattle.read_place.specs.Place.{entered, header_entered, table_at, linked, link_of, left_at, right_at};
ghost use Rattle.read_place.specs.Place.{name_at};
ghost use Rattle.read_place.specs.inner.Side.{link_on};

use layout_node::Header;
use read_entry::{ReadError, Table};
use units::{Link, Offset, Region};

// Why the entry at a place cannot be gone into.
#[derive(Clone, Copy, Debug, PartialEq, Eq)]
pub enum EnterError {
    // 22: no entry stands there.
    DoesNotExist,
    // 23, 24: with the offset that was to be read.
    Read(ReadError),
    // 27: the entry is no directory.
    IsNotDirectory,
}

impl EnterError {
    // The number of the refusal.
    pub fn number(self) -> u32
        ensures { result ≡ number_of (entered (Err self)) }
    {
        match self {
            EnterError::DoesNotExist => 22,
            EnterError::Read(e) => e.number(),
            EnterError::IsNotDirectory => 27,
        }
    }
}

impl From<ReadError> for EnterError {
    ghost use Rattle.read_place.specs.declared.EnterError.TheVariants as error;

    ghost from_gives = { λ e r. r ≡ error.Read e };

    fn from(e: ReadError) -> EnterError {
        EnterError::Read(e)
    }
}

// One of an entry's two links.
#[derive(Clone, Copy)]
enum Side {
    Left,
    Right,
}

impl Side {
    // The link of a header on this side.
    fn link(self, header: Header) -> Link
        ensures { result ≡ link_on self header }
    {
        match self {
            Side::Left => header.left,
            Side::Right => header.right,
        }
    }
}

// The table of the directory at a place.
#[tactic(auto, unfolding(crate::specs::Place::table_at, crate::specs::Place::header_entered))]
pub fn table_at(table: Table, offset: Offset) -> Result<Region, EnterError>
    ensures { let t = table.entry in
        entered result ≡ table_at t.window.now t.first t.region offset.0 }
{
    let Some(entry) = table.read_at(offset)? else {
        return Err(EnterError::DoesNotExist);
    };
    if !entry.header.is_directory() {
        return Err(EnterError::IsNotDirectory);
    }
    Ok(entry.header.region())
}

// Where a link of the entry at a place leads; none where it is absent, as 0 and 0xffff are for the walk, or where no
// entry stands there.
#[tactic(auto, unfolding(crate::specs::Place::by_link, read_entry::specs::Links::offset_by))]
fn linked_at(table: Table, offset: Offset, side: Side) -> Result<Option<Offset>, ReadError>
    ensures { let t = table.entry in
        linked result ≡ link_of (link_on side) (read_at t.window.now t.first t.region offset.0) }
{
    let Some(entry) = table.read_at(offset)? else {
        return Ok(None);
    };
    Ok(read_entry::follow(side.link(entry.header), 0xffff))
}

// Where the left link of the entry at a place leads.
#[tactic(auto, unfolding(crate::specs::Place::left_at))]
pub fn left_at(table: Table, offset: Offset) -> Result<Option<Offset>, ReadError>
    ensures { let t = table.entry in
        linked result ≡ left_at t.window.now t.first t.region offset.0 }
{
    linked_at(table, offset, Side::Left)
}

// Where the right link of the entry at a place leads.
#[tactic(auto, unfolding(crate::specs::Place::right_at))]
pub fn right_at(table: Table, offset: Offset) -> Result<Option<Offset>, ReadError>
    ensures { let t = table.entry in
        linked result ≡ right_at t.window.now t.first t.region offset.0 }
{
    linked_at(table, offset, Side::Right)
}

// The name of the entry at a place, as that part of the window itself; where there is none, the empty
// part at the window's start.
#[tactic(auto, unfolding(crate::specs::Place::name_at))]
pub fn name_at<'a>(table: Table<'a>, offset: Offset) -> &'a [u8]
    ensures { let t = table.entry in
        IsPart result t.window (name_at t.window.now t.first t.region offset.0) }
{
    match table.read_at(offset) {
        Ok(Some(entry)) => entry.name_in(table.window),
        _ => &table.window[..0],
    }
}
