// A name is looked up in a table, under a rule: along the links, with the number of headers read. A rule says which
// links are absent, 0 and another.
#![tactic(auto)]

ghost use Rattle.std.specs.Prelude.{◌≡◌, [], ◌∷◌};
ghost use Rattle.units.specs.Told.{number_of};
ghost use Rattle.name_role.specs.Roles.{bad_sought};
ghost use Rattle.read_lookup.specs.Lookup.{told, lookup_by, lookup_of};
ghost use Rattle.read_lookup.specs.inner.Lookup.{absent_link};

use read_entry::{Placed, ReadError, Table};
use std::cmp::Ordering;
use units::Offset;

// Which links are absent in a lookup.
#[derive(Clone, Copy, Debug, PartialEq, Eq)]
pub enum Rule {
    // 1: the links 0 and 255.
    One,
    // 2: the links 0 and 65,535, as for the walk.
    Two,
}

// 29: no rule has the number.
#[derive(Clone, Copy, Debug, PartialEq, Eq)]
pub struct BadRule;

impl TryFrom<u32> for Rule {
    type Error = BadRule;

    ghost use Rattle.read_entry.specs.Links.{absent_under};
    ghost use Rattle.read_lookup.specs.inner.Lookup.{ruling};

    ghost try_from_gives = { λ number r. ruling r ≡ absent_under number };

    #[tactic(auto, unfolding(read_entry::specs::Links::absent_under))]
    fn try_from(number: u32) -> Result<Rule, BadRule> {
        match number {
            1 => Ok(Rule::One),
            2 => Ok(Rule::Two),
            _ => Err(BadRule),
        }
    }
}

impl Rule {
    // The link that is absent under the rule; 0 is absent under both.
    pub fn absent_link(self) -> u16
        ensures { result ≡ absent_link self }
    {
        match self {
            Rule::One => 0xff,
            Rule::Two => 0xffff,
        }
    }
}

// What a lookup finds: the entry, its offset in the table, and the number of headers read.
#[derive(Clone, Copy)]
pub struct Found {
    pub entry: Placed,
    pub offset: Offset,
    pub headers: u32,
}

// Why a lookup finds no entry.
#[derive(Clone, Copy, Debug, PartialEq, Eq)]
pub enum LookupError {
    // 29: no rule has the number.
    BadRule,
    // 2: a byte of the name is above 127.
    BadByte,
    // 21: the table's size is 0.
    DirectoryEmpty,
    // 22: an absent link, or no entry; with the number of headers read.
    DoesNotExist(u32),
    // 23, 24: with the offset that was to be read.
    Read(ReadError),
    // 25: an offset would be read again.
    Looped,
}

impl LookupError {
    // The number of the refusal.
    pub fn number(self) -> u32
        ensures { result ≡ number_of (told (Err self)) }
    {
        match self {
            LookupError::BadRule => 29,
            LookupError::BadByte => 2,
            LookupError::DirectoryEmpty => 21,
            LookupError::DoesNotExist(_) => 22,
            LookupError::Read(e) => e.number(),
            LookupError::Looped => 25,
        }
    }
}

impl From<ReadError> for LookupError {
    ghost use Rattle.read_lookup.specs.declared.LookupError.TheVariants as error;

    ghost from_gives = { λ e r. r ≡ error.Read e };

    fn from(e: ReadError) -> LookupError {
        LookupError::Read(e)
    }
}

impl From<BadRule> for LookupError {
    ghost use Rattle.read_lookup.specs.declared.LookupError.TheVariants as error;

    ghost from_gives = { λ e r. r ≡ error.BadRule };

    fn from(_e: BadRule) -> LookupError {
        LookupError::BadRule
    }
}

// A name that cannot be sought: some byte is above 127.
pub fn is_bad_sought(s: &[u8]) -> bool
    ensures { result ≡ bad_sought s.now }
{
    s.iter().any(|byte| 127 < *byte)
}

// The entry of a name in a table, by links of which 0 and `absent` lead nowhere. Each header is read by the numbers of
// the window and of the table.
// A chain of links that has read 65,536 headers never ends: there are no more offsets that a link can name.
fn look_in(table: Table, name: &[u8], absent: u16) -> Result<Found, LookupError>
    ensures { let t = table.entry in
        told result ≡ lookup_by (0 ∷ absent ∷ []) t.window.now t.first t.region name.now }
{
    if is_bad_sought(name) {
        return Err(LookupError::BadByte);
    }
    if table.region.size == 0 {
        return Err(LookupError::DirectoryEmpty);
    }
    let mut offset = Offset::new(0);
    for read in 0..65536 {
        let headers = read + 1;
        let Some(entry) = table.read_at(offset)? else {
            return Err(LookupError::DoesNotExist(headers));
        };
        let link = match layout_name::compare(name, entry.name_in(table.window)) {
            Ordering::Less => entry.header.left,
            Ordering::Equal => return Ok(Found {
                entry,
                offset,
                headers,
            }),
            Ordering::Greater => entry.header.right,
        };
        let Some(next) = read_entry::follow(link, absent) else {
            return Err(LookupError::DoesNotExist(headers));
        };
        offset = next;
    }
    Err(LookupError::Looped)
}

// The same. The table is read in its own part of the window, which starts with the table: so nothing is worked out at
// each header but the header.
// (`absent` is any number, as the definition has it; a `Rule` would ask more of callers.)
pub fn look_up_by(table: Table, name: &[u8], absent: u16) -> Result<Found, LookupError>
    ensures { let t = table.entry in
        told result ≡ lookup_by (0 ∷ absent ∷ []) t.window.now t.first t.region name.now }
{
    let part = table.narrowed();
    let base = table.window.len() - part.window.len();
    let mut found = look_in(part, name, absent)?;
    found.entry.place += base;
    Ok(found)
}

// The entry of a name in a table, under the rule of a number.
// (A number and no `Rule`, which would ask more of callers: C gives a number, and one that is no rule is 29.)
#[tactic(auto, unfolding(crate::specs::Lookup::lookup_of))]
pub fn look_up(table: Table, name: &[u8], rule: u32) -> Result<Found, LookupError>
    ensures { let t = table.entry in
        told result ≡ lookup_of rule t.window.now t.first t.region name.now }
{
    let rule = Rule::try_from(rule)?;
    look_up_by(table, name, rule.absent_link())
}
