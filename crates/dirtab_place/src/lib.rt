// Places of entries that are given in an order of their numbers: offsets over 4 into a column, the size of their
// table, and sectors counted. The columns are slices, since C lends them, and parameters by themselves: the planner
// measures by a column of lengths alone, and counts sectors of sizes and kinds that have no names beside them.
#![tactic(auto)]

ghost use Rattle.std.specs.Prelude.{ℕ, ◌≡◌, ◌≤◌, ◌<◌, length, get_or};
ghost use Rattle.layout_node.specs.Header.{entry_length};
ghost use Rattle.table_model.specs.Place.{start_after};
ghost use Rattle.dirtab_place.specs.inner.Places.{Placeable, Measurable, Countable, Sized, size_in};
ghost use Rattle.dirtab_place.specs.inner.Places.{told_end, ends_over, places_over, size_along, told_free, free_over};

use dirtab_entry::{Kind, stored_size};
use layout_node::entry_length;
use layout_sector::{SectorCounter, SectorOverflow};
use units::{Offset, Sector, link_to};

// 7: an offset over 4 exceeds 65,535.
#[derive(Clone, Copy, Debug, PartialEq, Eq)]
pub struct TooManyDirectoryEntries;

// The length of an entry whose name has so many bytes.
fn length_for(name_len: u32) -> u32
    requires { name_len ≤ 255 }
    ensures { (result ≡ entry_length name_len) × (result ≤ 272) }
{
    entry_length(name_len as u8)
}

// Where an entry of so many bytes starts after what ends at `end`: there, or at the next line of a sector where it
// would cross one.
#[tactic(auto, using(crate::proofs::Turns::stays, crate::proofs::Turns::moves))]
fn start_after(end: u32, bytes: u32) -> u32
    requires { (end ≤ 4294965248) × (bytes ≤ 272) }
    ensures { result ≡ start_after end bytes }
{
    if end % 2048 + bytes <= 2048 {
        end
    } else {
        end.next_multiple_of(2048)
    }
}

// Each entry of the order gets its offset over 4, at its number. The answer is where the last one ends.
#[tactic(auto, using(crate::proofs::Turns::placing))]
pub fn place_entries(
    order: &[u16],
    len: &[u32],
    place: &mut [u16],
) -> Result<u32, TooManyDirectoryEntries>
    requires { Placeable order.now len.now (length place.old) }
    ensures answer { told_end result ≡ ends_over len.now 0 order.now }
    ensures place { place.new ≡ places_over len.now 0 order.now place.old }
{
    let mut end = 0;
    for &number in order {
        let i = number as usize;
        let bytes = length_for(len[i]);
        let start = start_after(end, bytes);
        if 65535 < start / 4 {
            return Err(TooManyDirectoryEntries);
        }
        place[i] = link_to(Offset::new(start)).number();
        end = start + bytes;
    }
    Ok(end)
}

// The reported size of a table with entries in this order: the last end, or 2,048 for an empty one.
// (A loop of its own: `place_entries` stores and can refuse, this does neither, and one function with a closure for
// the store would be longer than both.)
#[tactic(auto, using(crate::proofs::Lengths::measuring))]
pub fn measure(order: &[u16], len: &[u32]) -> u32
    requires { Measurable order.now len.now }
    ensures { result ≡ size_along len.now order.now }
{
    if order.is_empty() {
        return 2048;
    }
    let mut end = 0;
    for &number in order {
        let bytes = length_for(len[number as usize]);
        end = start_after(end, bytes) + bytes;
    }
    end
}

// The size that an entry is stored with.
pub fn stored_at(size: &[u32], kind: &[u8], i: usize) -> u32
    requires { Sized size.now kind.now i }
    ensures { result ≡ size_in size.now kind.now i }
{
    stored_size(Kind::from(kind[i]), size[i])
}

// The entries of the order take their sectors, from the first on. The answer is the next free sector. (That the sizes
// are numbers of 32 bits is said for callers that have their column in a struct.)
#[tactic(auto, using(crate::proofs::Turns::counting))]
pub fn count_sectors(
    order: &[u16],
    size: &[u32],
    kind: &[u8],
    first: Sector,
) -> Result<Sector, SectorOverflow>
    requires { Countable order.now size.now kind.now }
    ensures answer { told_free result ≡ free_over size.now kind.now first.0 order.now }
    ensures words { (j : ℕ) → get_or size.now j 0 ≤ 4294967295 }
{
    let mut counter = SectorCounter::starting_at(first);
    for &number in order {
        let bytes = stored_at(size, kind, number as usize);
        let (_, next) = counter.take(bytes as u64)?;
        counter = next;
    }
    Ok(counter.next_free())
}
