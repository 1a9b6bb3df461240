// An entry as it is given to be added to a table: what adding asks of it, and the size that it is stored with.
#![tactic(auto)]

ghost use Rattle.std.specs.Prelude.{◌≡◌, true, ◌≤◌};
ghost use Rattle.units.specs.Told.{number_of};
ghost use Rattle.dirtab_entry.specs.Entry.{told, check_of, any_bad, is_directory, stored_size, kind_for};
ghost use Rattle.dirtab_entry.specs.Entries.{HasPlace, given_by};

use avl_model::Names;

// What an entry names.
#[derive(Clone, Copy, Debug, PartialEq, Eq)]
pub enum Kind {
    File,
    Directory,
}

// The kind that a column's number says: 1 is a directory, any other a file.
impl From<u8> for Kind {
    ghost use Rattle.dirtab_entry.specs.Entry.{kind_for};

    ghost from_gives = { λ n kind. kind ≡ kind_for n };

    fn from(n: u8) -> Kind {
        if n == 1 { Kind::Directory } else { Kind::File }
    }
}

// The number of a kind in its column.
impl From<Kind> for u8 {
    ghost use Rattle.dirtab_entry.specs.Entry.{kind_number};

    ghost from_gives = { λ kind n. n ≡ kind_number kind };

    fn from(kind: Kind) -> u8 {
        match kind {
            Kind::File => 0,
            Kind::Directory => 1,
        }
    }
}

// The same as a function, by the name that the front door exports.
pub fn kind_of(n: u8) -> Kind
    ensures { result ≡ kind_for n }
{
    Kind::from(n)
}

// The place of the name in the bytes that C lends for names, the kind, and the size in bytes.
#[derive(Clone, Copy)]
pub struct Entry {
    pub start: u32,
    pub len: u32,
    pub kind: Kind,
    pub size: u32,
}

// Entries in columns: of each the name, the size and the number of the kind. The columns are slices, since C lends
// them.
#[derive(Clone, Copy)]
pub struct Entries<'a> {
    pub names: Names<'a>,
    pub size: &'a [u32],
    pub kind: &'a [u8],
}

// Entry i.
// (No method: `Entries` is exported by the front door, where nothing asks anything of its caller.)
pub fn nth_entry(entries: Entries<'_>, i: usize) -> Entry
    requires { HasPlace entries i }
    ensures { result ≡ given_by entries.entry i }
{
    Entry {
        start: entries.names.start[i],
        len: entries.names.len[i],
        kind: Kind::from(entries.kind[i]),
        size: entries.size[i],
    }
}

// Why an entry is refused.
#[derive(Clone, Copy, Debug, PartialEq, Eq)]
pub enum Cause {
    // 1: the name is empty.
    EmptyName,
    // 2: a byte is 0 or above 127, or the name's place reaches past the bytes lent.
    BadByte,
    // 3: the name has more than 255 bytes.
    NameTooLong,
    // 5: a directory's size is above 4,294,965,248.
    SizeOverflow,
    // 4: an equal name is there.
    DuplicateFileName,
    // 6: no place is left, or 16,384 entries are there.
    Room,
}

impl Cause {
    // The number of a cause.
    pub fn number(self) -> u32
        ensures { result ≡ number_of (told (Err self)) }
    {
        match self {
            Cause::EmptyName => 1,
            Cause::BadByte => 2,
            Cause::NameTooLong => 3,
            Cause::DuplicateFileName => 4,
            Cause::SizeOverflow => 5,
            Cause::Room => 6,
        }
    }
}

// Some byte is 0 or above 127. All are looked at, which on a long name is five times as fast as `any`, with its early
// end.
fn any_bad(s: &[u8]) -> bool
    ensures { result ≡ any_bad s.now }
{
    s.iter().fold(false, |bad, x| bad | (*x == 0) | (127 < *x))
}

// What adding asks of an entry by itself: 1, 2, 3, 5 in that order.
#[tactic(auto, unfolding(crate::specs::Entry::check_of))]
pub fn check_entry(names: &[u8], entry: Entry) -> Result<(), Cause>
    ensures { told result ≡ check_of names.now entry }
{
    let start = entry.start as usize;
    let len = entry.len as usize;
    if len == 0 {
        return Err(Cause::EmptyName);
    }
    let end = start + len;
    if names.len() < end || any_bad(&names[start..end]) {
        return Err(Cause::BadByte);
    }
    if 255 < len {
        return Err(Cause::NameTooLong);
    }
    if entry.kind == Kind::Directory && 4294965248 < entry.size {
        return Err(Cause::SizeOverflow);
    }
    Ok(())
}

// The size that an entry is stored with: a directory's is rounded up to a multiple of 2,048.
pub fn stored_size(kind: Kind, size: u32) -> u32
    requires { is_directory kind ≡ true → size ≤ 4294965248 }
    ensures { result ≡ stored_size kind size }
{
    match kind {
        Kind::File => size,
        Kind::Directory => size.next_multiple_of(2048),
    }
}
