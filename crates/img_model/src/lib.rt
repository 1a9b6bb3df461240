// The words that planning an image and its definitions share: what is asked, what is lent, and why a plan is refused.
// The definitions are in specs/, their laws in proofs/.
#![tactic(auto)]

ghost use Rattle.std.specs.Prelude.{◌≡◌, ◌+◌, ◌≤◌, ◌<◌, Err, length};
ghost use Rattle.units.specs.Told.{number_of};
ghost use Rattle.img_model.specs.Plan.{told};
ghost use Rattle.img_model.specs.Image.{request_in};
ghost use Rattle.img_model.specs.Columns.{columns_in, IsShareOf, asked_in};
ghost use Rattle.img_model.specs.inner.Tables.{Sizeable};

use avl_model::Names;
use dirtab_entry::Cause;

// Why an image is not planned.
#[derive(Clone, Copy, Debug, PartialEq, Eq)]
pub enum PlanError {
    // 6: a lent column is shorter than the entry or directory count, or the arena than a directory's share.
    Room,
    // 11: no directory, a share past the entries, or a directory that is not named once, by an earlier one.
    BadTree,
    // 10, 1, 2, 3, 5, 4, 6: the first entry that is refused, by its place in the list of entries.
    FileTooLarge(u32),
    Refused(Cause, u32),
    // 7, 8: the first directory whose table cannot be placed.
    TooManyDirectoryEntries(u32),
    SectorOverflow(u32),
}

impl PlanError {
    // The number of the refusal.
    pub fn number(self) -> u32
        ensures { result ≡ number_of (told (Err self)) }
    {
        match self {
            PlanError::Room => 6,
            PlanError::BadTree => 11,
            PlanError::FileTooLarge(_) => 10,
            PlanError::Refused(cause, _) => cause.number(),
            PlanError::TooManyDirectoryEntries(_) => 7,
            PlanError::SectorOverflow(_) => 8,
        }
    }
}

// What is to be planned, in lent columns (no heap): for each directory the place of its first entry in the list of
// entries and how many it has, the root first; for each entry its name, its kind (1 is a directory), and its value: a
// file's length, or a directory's place in the list of directories.
#[derive(Clone, Copy)]
pub struct Request<'a> {
    pub from: &'a [u32],
    pub share: &'a [u32],
    pub names: Names<'a>,
    pub kind: &'a [u8],
    pub value: &'a [u64],
}

// The entries of one directory: its share of each column.
#[derive(Clone, Copy)]
pub struct Share<'a> {
    pub names: Names<'a>,
    pub kind: &'a [u8],
    pub value: &'a [u64],
}

// The columns as far as the two counts go.
// (This and the next are no methods: `Request` is exported by the front door, where nothing asks anything of its
// caller.)
pub fn cut_request<'a>(request: Request<'a>, directories: usize, entries: usize) -> Request<'a>
    requires directories { (directories ≤ length request.from.now) × (directories ≤ length request.share.now) }
    requires names { (entries ≤ length request.names.start.now) × (entries ≤ length request.names.len.now) }
    requires entries { (entries ≤ length request.kind.now) × (entries ≤ length request.value.now) }
    ensures { columns_in result ≡ request_in (asked_in directories entries request.entry) }
{
    Request {
        from: &request.from[..directories],
        share: &request.share[..directories],
        names: Names {
            bytes: request.names.bytes,
            start: &request.names.start[..entries],
            len: &request.names.len[..entries],
        },
        kind: &request.kind[..entries],
        value: &request.value[..entries],
    }
}

// The entries of directory d.
pub fn directory_share<'a>(request: Request<'a>, d: usize) -> Share<'a>
    requires { Sizeable (columns_in request) × (d < length request.from.now) }
    ensures { IsShareOf request.entry d result }
{
    let from = request.from[d] as usize;
    let to = from + request.share[d] as usize;
    Share {
        names: Names {
            bytes: request.names.bytes,
            start: &request.names.start[from..to],
            len: &request.names.len[from..to],
        },
        kind: &request.kind[from..to],
        value: &request.value[from..to],
    }
}

// What is lent for the plan: the size and the sector of each table, and the sector of each entry.
#[derive(Drop)]
pub struct PlanOut<'a> {
    pub sizes: &'a mut [u32],
    pub tables: &'a mut [u32],
    pub sectors: &'a mut [u32],
}

// What is lent as scratch: a size for each directory, the columns of a tree, an order.
#[derive(Drop)]
pub struct PlanScratch<'a> {
    pub sized: &'a mut [u32],
    pub left: &'a mut [u16],
    pub right: &'a mut [u16],
    pub parent: &'a mut [u16],
    pub height: &'a mut [u8],
    pub key: &'a mut [u32],
    pub size: &'a mut [u32],
    pub order: &'a mut [u16],
}
