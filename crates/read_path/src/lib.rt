// A path is followed from a table, under a rule: each part of it is looked up in the table that the part before it
// names.
#![tactic(auto)]

ghost use Rattle.std.specs.Prelude.{◌≡◌, [], ◌∷◌, ◌≤◌, length, drop};
ghost use Rattle.units.specs.Told.{number_of};
ghost use Rattle.read_path.specs.Path.{trim, told, path_by, path_of};
ghost use Rattle.read_path.specs.inner.Path.{first_len};

use read_entry::{Placed, ReadError, Table};
use read_lookup::{BadRule, LookupError, Rule};

// Why a path leads to no entry.
#[derive(Clone, Copy, Debug, PartialEq, Eq)]
pub enum PathError {
    // 29: no rule has the number.
    BadRule,
    // 2: a byte of the path is above 127.
    BadByte,
    // 21, 22, 23, 24, 25: as the lookup of a part answers, 22 without its count.
    DirectoryEmpty,
    DoesNotExist,
    Read(ReadError),
    Looped,
    // 27: a part but the last is no directory.
    IsNotDirectory,
    // 28: the path has no part.
    NoDirent,
}

impl PathError {
    // The number of the refusal.
    pub fn number(self) -> u32
        ensures { result ≡ number_of (told (Err self)) }
    {
        match self {
            PathError::BadRule => 29,
            PathError::BadByte => 2,
            PathError::DirectoryEmpty => 21,
            PathError::DoesNotExist => 22,
            PathError::Read(e) => e.number(),
            PathError::Looped => 25,
            PathError::IsNotDirectory => 27,
            PathError::NoDirent => 28,
        }
    }
}

impl From<BadRule> for PathError {
    ghost use Rattle.read_path.specs.declared.PathError.TheVariants as error;

    ghost from_gives = { λ e r. r ≡ error.BadRule };

    fn from(_e: BadRule) -> PathError {
        PathError::BadRule
    }
}

impl From<LookupError> for PathError {
    ghost use Rattle.std.specs.Prelude.{Err};
    ghost use Rattle.read_lookup.specs.Lookup as lookup;
    ghost use Rattle.read_path.specs.Path as path;

    ghost from_gives = { λ e r. path.told (Err r) ≡ path.last_of (lookup.told (Err e)) };

    fn from(e: LookupError) -> PathError {
        match e {
            LookupError::BadRule => PathError::BadRule,
            LookupError::BadByte => PathError::BadByte,
            LookupError::DirectoryEmpty => PathError::DirectoryEmpty,
            LookupError::DoesNotExist(_) => PathError::DoesNotExist,
            LookupError::Read(e) => PathError::Read(e),
            LookupError::Looped => PathError::Looped,
        }
    }
}

// The path without its leading slashes.
fn trimmed(path: &[u8]) -> &[u8]
    ensures { result.now ≡ trim path.now }
{
    let start = path
        .iter()
        .position(|byte| *byte != b'/')
        .unwrap_or(path.len());
    &path[start..]
}

// The length of the first part: up to the first slash, or to the end.
fn part_len(path: &[u8]) -> usize
    ensures len { result ≡ first_len path.now }
    ensures within { result ≤ length path.now }
{
    path.iter()
        .position(|byte| *byte == b'/')
        .unwrap_or(path.len())
}

// The entry that a path leads to from a table, by links of which 0 and `absent` lead nowhere.
// (`absent` is a number here as in `read_lookup::look_up_by`, which it is handed to.)
fn find_path_by(mut table: Table, path: &[u8], absent: u16) -> Result<Placed, PathError>
    ensures { let t = table.entry in
        told result ≡ path_by (0 ∷ absent ∷ []) t.window.now t.first t.region path.now }
{
    if read_lookup::is_bad_sought(path) {
        return Err(PathError::BadByte);
    }
    let mut rest = trimmed(path);
    // No index is counted: `split` would not say which part is the last, and one slash may end a path.
    while !rest.is_empty() {
        let (part, after) = rest.split_at(part_len(rest));
        let entry = read_lookup::look_up_by(table, part, absent)?.entry;
        if after.len() <= 1 {
            return Ok(entry);
        }
        if !entry.header.is_directory() {
            return Err(PathError::IsNotDirectory);
        }
        table.region = entry.header.region();
        rest = &after[1..];
    }
    Err(PathError::NoDirent)
}

// The entry that a path leads to from a table, under the rule of a number.
// (A number and no `Rule`, as for `read_lookup::look_up`.)
#[tactic(auto, unfolding(crate::specs::Path::path_of))]
pub fn find_path(table: Table, path: &[u8], rule: u32) -> Result<Placed, PathError>
    ensures { let t = table.entry in
        told result ≡ path_of rule t.window.now t.first t.region path.now }
{
    let rule = Rule::try_from(rule)?;
    find_path_by(table, path, rule.absent_link())
}

// The same under rule two, for a caller who knows no other.
#[tactic(auto, unfolding(crate::specs::Path::path_of, read_entry::specs::Links::absent_under))]
pub fn find_path_two(table: Table, path: &[u8]) -> Result<Placed, PathError>
    ensures { let t = table.entry in
        told result ≡ path_of 2 t.window.now t.first t.region path.now }
{
    find_path_by(table, path, Rule::Two.absent_link())
}
