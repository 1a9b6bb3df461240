// Recorded descriptors: the front door writes and reads the same, and the whole answer is compared.
// crates/replay/src/main.rt describes the records.
ghost use Rattle.std.specs.Prelude.{◌≡◌};
ghost use Rattle.units.specs.Told.{number_of};
ghost use Rattle.layout_volume.specs.Descriptor as volume;

use crate::record::Record;
use xdvdfs::{BufferTooSmall, Descriptor, Region, Sector};

// Whether the output holds these bytes, and what it held before, 7, after them.
// (is_table of table.rs is the like, where what follows the bytes depends on the place.)
fn is_output(out: &[u8], bytes: &[u8]) -> bool {
    for (i, x) in out.iter().enumerate() {
        if *x != bytes.get(i).copied().unwrap_or(7) {
            return false;
        }
    }
    true
}

// The number of a refusal (docs/SCOPE.md); 0 where the descriptor is written.
fn number_of(r: Result<(), BufferTooSmall>) -> u32
    ensures { result ≡ number_of (volume.write_told r) }
{
    match r {
        Ok(()) => 0,
        Err(e) => e.number(),
    }
}

// Writes a descriptor: whether the answer has this number, and the output then holds these bytes and nothing else.
fn is_written(d: Descriptor, out: &mut [u8], n: u32, bytes: &[u8]) -> bool {
    number_of(xdvdfs::write_descriptor(out, d)) == n && is_output(out, bytes)
}

// Into an output of a byte too little, of just enough, and of more.
pub fn same_written(r: Record<'_>) -> bool {
    let d = Descriptor {
        root: Region {
            sector: Sector::new(r.number_at(1)),
            size: r.number_at(5),
        },
        stamp: r.long_at(9),
    };
    let bytes = r.rest(17);
    let mut short = [7u8; 2047];
    let mut out = [7u8; 2048];
    let mut long = [7u8; 2100];
    bytes.len() == 2048
        && is_written(d, &mut short, 9, r.part(0, 0))
        && is_written(d, &mut out, 0, bytes)
        && is_written(d, &mut long, 0, bytes)
}

// Whether the recorded answer is this one.
// (Numbers and no `Descriptor`: of a refusal each is recorded as 0.)
fn is_read(r: Record<'_>, n: u32, sector: u32, size: u32, stamp: u64) -> bool {
    r.is(1, n) && r.is(5, sector) && r.is(9, size) && r.long_at(13) == stamp
}

pub fn same_read(r: Record<'_>) -> bool {
    match xdvdfs::read_descriptor(r.rest(21)) {
        Ok(d) => is_read(r, 0, d.root.sector.number(), d.root.size, d.stamp),
        Err(e) => is_read(r, e.number(), 0, 0, 0),
    }
}
