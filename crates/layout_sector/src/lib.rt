// The sector counter: hands out the next free sector and moves on by the sectors that a length takes.
#![tactic(auto)]

ghost use Rattle.std.specs.Prelude.{◌≡◌};
ghost use Rattle.units.specs.Told.{number_of};
ghost use Rattle.layout_sector.specs.Counter.{sectors_for, told, take_of};

use units::Sector;

// The next free sector. Its field is private: sectors are handed out by `take` alone.
#[derive(Clone, Copy, Debug, PartialEq, Eq)]
pub struct SectorCounter {
    next: Sector,
}

// 8: the next free sector would exceed 4,294,967,295.
#[derive(Clone, Copy, Debug, PartialEq, Eq)]
pub struct SectorOverflow;

impl SectorOverflow {
    // The number of the refusal.
    pub fn number(self) -> u32
        ensures { result ≡ number_of (told (Err self)) }
    {
        8
    }
}

// The sectors that a length takes: its 2,048-byte sectors, rounded up; a length of 0 takes one.
#[tactic(auto, unfolding(crate::specs::Counter::sectors_for))]
pub fn required_sectors(length: u64) -> u64
    ensures { result ≡ sectors_for length }
{
    length.div_ceil(2048).max(1)
}

impl SectorCounter {
    // The number of the first sector that an image hands out.
    pub const FIRST: u32 = 33;

    // A counter at the first sector.
    pub fn new() -> SectorCounter
        ensures { result.next.0 ≡ 33 }
    {
        SectorCounter {
            next: Sector::new(SectorCounter::FIRST),
        }
    }

    // A counter at a given sector.
    pub fn starting_at(start: Sector) -> SectorCounter
        ensures { result.next.0 ≡ start.0 }
    {
        SectorCounter { next: start }
    }

    // The next free sector.
    pub fn next_free(self) -> Sector
        ensures { result.0 ≡ self.next.0 }
    {
        self.next
    }

    // Takes the sectors of a length: the first of them, and the counter past the last of them.
    pub fn take(self, length: u64) -> Result<(Sector, SectorCounter), SectorOverflow>
        ensures { told result ≡ take_of 1 self.next.0 length }
    {
        let start = self.next;
        let count = required_sectors(length);
        // (`as`, since a call of `u64::from` says no value to the proof.)
        let left = (u32::MAX - start.number()) as u64;
        if left < count {
            return Err(SectorOverflow);
        }
        let free = start.number() + (count as u32);
        let after = SectorCounter {
            next: Sector::new(free),
        };
        Ok((start, after))
    }
}
