// One directory entry, read at an offset of a table out of a window: a slice of bytes and the number of its first
// sector.
#![tactic(auto)]

ghost use Rattle.std.specs.Prelude.{◌≡◌, ◌<◌, ◌^◌, [], ◌∷◌};
ghost use Rattle.units.specs.Lent.{IsPart};
ghost use Rattle.units.specs.Told.{number_of, refuses};
ghost use Rattle.read_entry.specs.Entry.{told, read_here, read_at, name_part};
ghost use Rattle.read_entry.specs.Links.{offset_by, followed};
ghost use Rattle.read_entry.specs.inner.Part.{part_of, IsNarrowed};

use layout_node::Header;
use units::{Link, Offset, OutOfBounds, Region, Sector};

// A directory table, by its region, in a window of image bytes that starts with sector `first`.
#[derive(Clone, Copy)]
pub struct Table<'a> {
    pub window: &'a [u8],
    pub first: Sector,
    pub region: Region,
}

// An entry that is read: its header, and the place in the window of its first byte.
#[derive(Clone, Copy)]
pub struct Placed {
    pub header: Header,
    pub place: usize,
}

// Why nothing is read at an offset.
#[derive(Clone, Copy, Debug, PartialEq, Eq)]
pub enum ReadError {
    // 23: the offset is not below the table's size.
    OutOfBounds(Offset),
    // 24: the header or the name is not in the window.
    Truncated(Offset),
}

impl ReadError {
    // The number of the refusal.
    pub fn number(self) -> u32
        ensures { result ≡ number_of (told (Err self)) }
    {
        match self {
            ReadError::OutOfBounds(_) => 23,
            ReadError::Truncated(_) => 24,
        }
    }

    // The offset that was to be read, which the refusal carries.
    pub fn offset(self) -> Offset
        ensures { told (Err self) ≡ refuses (number_of (told (Err self))) (result.0 ∷ []) }
    {
        match self {
            ReadError::OutOfBounds(offset) => offset,
            ReadError::Truncated(offset) => offset,
        }
    }
}

impl From<OutOfBounds> for ReadError {
    ghost use Rattle.read_entry.specs.declared.ReadError.TheVariants as error;

    ghost from_gives = { λ e r. r ≡ error.OutOfBounds e.0 };

    fn from(e: OutOfBounds) -> ReadError {
        ReadError::OutOfBounds(e.0)
    }
}

// The entry at a place of the window, which is the table's offset.
#[tactic(auto, unfolding(crate::specs::Entry::read_here))]
fn read_here(w: &[u8], place: usize, offset: Offset) -> Result<Option<Placed>, ReadError>
    requires { place < 2 ^ 45 }
    ensures { told result ≡ read_here w.now place offset.0 }
{
    if w.len() < place + 14 {
        return Err(ReadError::Truncated(offset));
    }
    let bytes = &w[place..place + 14];
    if layout_node::is_blank(bytes) {
        return Ok(None);
    }
    let header = layout_node::header_of(bytes);
    if w.len() < place + 14 + usize::from(header.name_len) {
        return Err(ReadError::Truncated(offset));
    }
    Ok(Some(Placed { header, place }))
}

impl<'a> Table<'a> {
    // The entry at an offset of the table, or that there is none: fourteen bytes of 0xff, or of 0.
    #[tactic(auto, using(units::proofs::Locating::byte_is), unfolding(crate::specs::Entry::read_at))]
    pub fn read_at(self, offset: Offset) -> Result<Option<Placed>, ReadError>
        ensures { let t = self.entry in told result ≡ read_at t.window.now t.first t.region offset.0 }
    {
        let byte = self.region.locate(offset)?;
        let from = self.first.start();
        if byte < from {
            return Err(ReadError::Truncated(offset));
        }
        read_here(self.window, (byte - from) as usize, offset)
    }

    // The same table in its own part of the window, the window from the table's first byte on (nothing where the
    // table starts outside it): a table of sector 0 in a window that starts with sector 0. What is read is the same,
    // with its places counted from there, and where an offset stands is not worked out at each header again.
    pub fn narrowed(self) -> Table<'a>
        ensures { IsNarrowed self.entry result }
    {
        let region = Region {
            sector: Sector::new(0),
            size: self.region.size,
        };
        Table {
            window: self.part(),
            first: Sector::new(0),
            region,
        }
    }

    // The window from the table's first byte on; nothing where the table starts outside it.
    fn part(self) -> &'a [u8]
        ensures { let t = self.entry in result.now ≡ part_of t.window.now t.first t.region }
    {
        let start = self.region.sector.start();
        let from = self.first.start();
        if start < from {
            return &[];
        }
        self.window.get((start - from) as usize..).unwrap_or(&[])
    }
}

impl Placed {
    // The entry's name, as that part of the window in which the entry stands.
    pub fn name_in(self, w: &[u8]) -> &[u8]
        ensures { IsPart result w.entry (name_part w.now self.place self.header.name_len) }
    {
        name_of(w, self.place, self.header.name_len)
    }
}

// The name of an entry whose first byte stands at a place of the window, as that part of the window itself: what the
// window has of n bytes from byte 14 of the entry on; past the window's end, the empty part at its start. (`get` would
// say what the part holds, and not where it stands.)
pub fn name_part(w: &[u8], place: usize, n: u32) -> &[u8]
    ensures { IsPart result w.entry (name_part w.now place n) }
{
    if w.len() < 14 {
        return &w[..0];
    }
    if w.len() - 14 < place {
        return &w[..0];
    }
    let from = place + 14;
    let len = n as usize;
    if w.len() - from < len {
        return &w[from..];
    }
    let to = from + len;
    &w[from..to]
}

// The same for a length as a header has it. (The front door exports it as `entry_name`.)
pub fn name_of(w: &[u8], place: usize, n: u8) -> &[u8]
    ensures { IsPart result w.entry (name_part w.now place n) }
{
    name_part(w, place, u32::from(n))
}

// The offset that a link names; of the links 0 and `absent`, which lead nowhere, none.
// (`absent` is any number, as the definition has it, for callers with a rule and for the walk, which has none.)
#[tactic(auto, unfolding(crate::specs::Links::offset_by, crate::specs::Links::is_in))]
pub fn follow(link: Link, absent: u16) -> Option<Offset>
    ensures { followed result ≡ offset_by (0 ∷ absent ∷ []) link.0 }
{
    let n = link.number();
    if n == 0 || n == absent {
        return None;
    }
    Some(link.offset())
}
