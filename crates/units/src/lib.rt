// The three kinds of count, each a tuple struct with a private field: code that takes one refuses to compile with
// another, and no other crate can rewrap one as another. They are changed into each other only by the conversions
// below: times 2,048 and times 4.
// (Each has its own `new` and `number`: the front door exports them, and a trait over the three would have the same
// functions three times; a From beside them would say the same again.)
#![tactic(auto)]

ghost use Rattle.std.specs.Prelude.{◌≡◌, ◌*◌, ◌/◌, ◌≤◌};
ghost use Rattle.units.specs.Region.{told, locate_of};

// The number of a sector of 2,048 bytes.
#[derive(Clone, Copy, Debug, PartialEq, Eq)]
pub struct Sector(u32);

// A byte offset in a directory table.
#[derive(Clone, Copy, Debug, PartialEq, Eq)]
pub struct Offset(u32);

// A link: an offset in units of four bytes.
#[derive(Clone, Copy, Debug, PartialEq, Eq)]
pub struct Link(u16);

impl Sector {
    pub fn new(n: u32) -> Sector
        ensures { result.0 ≡ n }
    {
        Sector(n)
    }

    pub fn number(self) -> u32
        ensures { result ≡ self.0 }
    {
        self.0 // of the sector
    }

    // Times 2,048: the byte of the image at which the sector starts.
    pub fn start(self) -> u64
        ensures { result ≡ 2048 * self.0 }
    {
        2048 * (self.0 as u64)
    }
}

impl Offset {
    pub fn new(n: u32) -> Offset
        ensures { result.0 ≡ n }
    {
        Offset(n)
    }

    pub fn number(self) -> u32
        ensures { result ≡ self.0 }
    {
        self.0 // of the offset
    }
}

impl Link {
    pub fn new(n: u16) -> Link
        ensures { result.0 ≡ n }
    {
        Link(n)
    }

    pub fn number(self) -> u16
        ensures { result ≡ self.0 }
    {
        self.0 // of the link
    }

    // Times 4.
    pub fn offset(self) -> Offset
        ensures { result.0 ≡ 4 * self.0 }
    {
        Offset(4 * (self.0 as u32))
    }
}

// The link that names an offset: over 4. (An offset over 4 of more than 65,535 is refusal 7, which the caller has seen
// to. It is no method, so that a door that exports the type does not export it.)
pub fn link_to(offset: Offset) -> Link
    requires { offset.0 / 4 ≤ 65535 }
    ensures { result.0 ≡ offset.0 / 4 }
{
    Link((offset.0 / 4) as u16)
}

// A run of bytes on the image: a directory table, or a file's contents.
#[derive(Clone, Copy)]
pub struct Region {
    pub sector: Sector,
    pub size: u32,
}

// 23: the offset is not below the region's size.
#[derive(Clone, Copy, Debug, PartialEq, Eq)]
pub struct OutOfBounds(pub Offset);

impl Region {
    // The byte of the image at which an offset of the region stands.
    #[tactic(auto, unfolding(crate::specs::Region::locate_of))]
    pub fn locate(self, offset: Offset) -> Result<u64, OutOfBounds>
        ensures { told result ≡ locate_of self offset }
    {
        let size = self.size;
        let sector = self.sector;
        if size <= offset.0 {
            return Err(OutOfBounds(offset));
        }
        Ok(sector.start() + (offset.0 as u64))
    }
}
