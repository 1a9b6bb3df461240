// The volume descriptor, which stands at sector 32: written and read.
#![tactic(auto)]

ghost use Rattle.std.specs.Prelude.{◌≡◌, take, drop};
ghost use Rattle.units.specs.Told.{number_of};
ghost use Rattle.layout_volume.specs.Descriptor.{mark, same_list, write_told, write_of, bytes_after, read_told};
ghost use Rattle.layout_volume.specs.Descriptor.{read_of, date_told, date_of};

use units::{Region, Sector};

// What a descriptor says: where the root table stands, its size, and when the volume was made. The stamp counts 100 ns
// since the start of 1601, UTC.
#[derive(Clone, Copy)]
pub struct Descriptor {
    pub root: Region,
    pub stamp: u64,
}

impl Descriptor {
    // The date, which is the stamp: none where it is 0.
    #[tactic(auto, unfolding(crate::specs::Descriptor::date_of))]
    pub fn read_date(self) -> Option<u64>
        ensures { date_told result ≡ date_of self.stamp }
    {
        if self.stamp == 0 {
            None
        } else {
            Some(self.stamp)
        }
    }
}

// 9: the output is shorter than 2,048 bytes.
#[derive(Clone, Copy, Debug, PartialEq, Eq)]
pub struct BufferTooSmall;

impl BufferTooSmall {
    // The number of the refusal.
    pub fn number(self) -> u32
        ensures { result ≡ number_of (write_told (Err self)) }
    {
        9
    }
}

// 20: a mark differs or is cut.
#[derive(Clone, Copy, Debug, PartialEq, Eq)]
pub struct NoVolume;

impl NoVolume {
    // The number of the refusal.
    pub fn number(self) -> u32
        ensures { result ≡ number_of (read_told (Err self)) }
    {
        20
    }
}

// The mark, with which a descriptor starts and ends.
const MARK: [u8; 20] = *b"MICROSOFT*XBOX*MEDIA";

// The twenty bytes of the mark stand at a place.
fn has_mark(s: &[u8], at: usize) -> bool
    ensures { result ≡ same_list (take 20 (drop at s.now)) mark }
{
    at <= s.len() && s[at..].starts_with(&MARK)
}

// Writes a descriptor into the first 2,048 bytes of the output.
pub fn write_descriptor(out: &mut [u8], d: Descriptor) -> Result<(), BufferTooSmall>
    ensures refusal { write_told result ≡ write_of out.old }
    ensures bytes { out.new ≡ bytes_after out.old d }
{
    if out.len() < 2048 {
        return Err(BufferTooSmall);
    }
    let root = d.root;
    let sector = root.sector;
    layout_bytes::fill(out, 2048, 0);
    layout_bytes::put_bytes(out, 0, &MARK);
    layout_bytes::put32(out, 20, sector.number());
    layout_bytes::put32(out, 24, root.size);
    layout_bytes::put64(out, 28, d.stamp);
    layout_bytes::put_bytes(out, 2028, &MARK);
    Ok(())
}

// Reads the descriptor that the bytes start with.
#[tactic(auto, using(crate::proofs::Reading::all_inside))]
pub fn read_descriptor(s: &[u8]) -> Result<Descriptor, NoVolume>
    ensures { read_told result ≡ read_of s.now }
{
    if has_mark(s, 0) && has_mark(s, 2028) {
        Ok(Descriptor {
            root: Region {
                sector: Sector::new(layout_bytes::u32_at(s, 20)),
                size: layout_bytes::u32_at(s, 24),
            },
            stamp: layout_bytes::u64_at(s, 28),
        })
    } else {
        Err(NoVolume)
    }
}
