// The fourteen bytes of a directory entry before its name: read, written, and what stands for no entry.
#![tactic(auto)]

ghost use Rattle.std.specs.Prelude.{◌≡◌, ◌+◌, ◌≤◌, length};
ghost use Rattle.layout_bytes.specs.Bytes.{all};
ghost use Rattle.layout_bytes.specs.inner.Bytes.{put_at};
ghost use Rattle.layout_node.specs.Header.{header_of, header_bytes, is_blank, is_directory, entry_length};

use units::{Link, Region, Sector};

// The fields of an entry but its name.
#[derive(Clone, Copy)]
pub struct Header {
    pub left: Link,
    pub right: Link,
    pub sector: Sector,
    pub size: u32,
    pub attributes: u8,
    pub name_len: u8,
}

// The fields that fourteen bytes say.
// (No From, which would take every slice: it asks for fourteen bytes. A slice and no array: it is a part of a window,
// which is not copied.)
#[tactic(auto, unfolding(crate::specs::Header::header_of))]
pub fn header_of(h: &[u8]) -> Header
    requires { length h.now ≡ 14 }
    ensures { result ≡ header_of h.now }
{
    Header {
        left: Link::new(layout_bytes::u16_at(h, 0)),
        right: Link::new(layout_bytes::u16_at(h, 2)),
        sector: Sector::new(layout_bytes::u32_at(h, 4)),
        size: layout_bytes::u32_at(h, 8),
        attributes: h[12],
        name_len: h[13],
    }
}

// The fields written as fourteen bytes at a place.
pub fn put_header(out: &mut [u8], at: usize, header: Header)
    requires { at + 14 ≤ length out.old }
    ensures { out.new ≡ put_at out.old at (header_bytes header) }
{
    layout_bytes::put16(out, at, header.left.number());
    layout_bytes::put16(out, at + 2, header.right.number());
    layout_bytes::put32(out, at + 4, header.sector.number());
    layout_bytes::put32(out, at + 8, header.size);
    layout_bytes::put_two(out, at + 12, header.attributes, header.name_len);
}

// Fourteen bytes of b. They are compared as three numbers and two bytes, in little code: so what calls it is inlined
// where it is called. (A loop over them takes two to three times as long.)
fn are_all(h: &[u8], b: u8) -> bool
    requires { length h.now ≡ 14 }
    ensures { result ≡ all b h.now }
{
    let four = u32::from_le_bytes([b; 4]);
    (layout_bytes::u32_at(h, 0) == four)
        & ((layout_bytes::u32_at(h, 4) == four)
            & ((layout_bytes::u32_at(h, 8) == four) & ((h[12] == b) & (h[13] == b))))
}

// No entry: fourteen bytes of 0xff, or of 0. The last byte is looked at first: where an entry stands, it is the length
// of a name, which is seldom either.
pub fn is_blank(h: &[u8]) -> bool
    requires { length h.now ≡ 14 }
    ensures { result ≡ is_blank h.now }
{
    match h[13] {
        0 => are_all(h, 0),
        0xff => are_all(h, 0xff),
        _ => false,
    }
}

impl Header {
    // The attribute 0x10 marks a directory, whatever else is set.
    pub fn is_directory(self) -> bool
        ensures { result ≡ is_directory self }
    {
        self.attributes & 0x10 != 0
    }

    // What the entry names: a directory's table, or a file's contents.
    pub fn region(self) -> Region
        ensures { (result.sector.0 ≡ self.sector.0) × (result.size ≡ self.size) }
    {
        Region {
            sector: self.sector,
            size: self.size,
        }
    }
}

// The length of an entry with a name of n bytes.
pub fn entry_length(n: u8) -> u32
    ensures { result ≡ entry_length n }
{
    (14 + u32::from(n)).next_multiple_of(4)
}
