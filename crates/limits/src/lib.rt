// The limits loader, for a rig that is to move only by limits that it has just found, with their date: a file's first
// sector, its size and the stamp of its volume are answered together, or none of them is.
#![tactic(auto)]

ghost use Rattle.std.specs.Prelude.{◌≡◌, ℕ, [], Err, MatchResult};
ghost use Rattle.units.specs.Told.{gives, refuses};
ghost use Rattle.layout_volume.specs.Descriptor as volume;
ghost use Rattle.limits_rule.specs.Limits.{volume_in, allowed_at, file_of, told, load_of, answered};
ghost use Rattle.limits_rule.specs.Limits.{limits_of};

pub use limits_rule::{Limits, LimitsError};
use xdvdfs::{Descriptor, Header, NoVolume, Sector, Table};

// The volume's descriptor, at sector 32 of the image, wherever the window starts.
fn volume_in(w: &[u8], first: Sector) -> Result<Descriptor, NoVolume>
    ensures { volume.read_told result ≡ volume_in w.now first }
{
    let n = first.number();
    if 32 < n {
        return Err(NoVolume);
    }
    let start = (2048 * (32 - n)) as usize;
    if w.len() < start {
        return Err(NoVolume);
    }
    xdvdfs::read_descriptor(&w[start..])
}

// The volume's date, if it allows loading: 40, 41, 42.
fn date_in_time(d: Descriptor, time: u64, age: u64) -> Result<u64, LimitsError>
    ensures { MatchResult result
        (λ stamp. allowed_at time age (volume.date_of d.stamp) ≡ gives stamp)
        (λ e. (k : ℕ) × ((allowed_at time age (volume.date_of d.stamp) ≡ refuses k [])
        × (told (Err e) ≡ refuses k []))) }
{
    let Some(stamp) = d.read_date() else {
        return Err(LimitsError::NoDate);
    };
    if time < stamp {
        return Err(LimitsError::NotYet);
    }
    if age < time - stamp {
        return Err(LimitsError::TooOld);
    }
    Ok(stamp)
}

// What is loaded of an entry, with its volume's stamp: 43 for a directory.
fn load_file(h: Header, stamp: u64) -> Result<Limits, LimitsError>
    ensures { told result ≡ file_of stamp h }
{
    if h.is_directory() {
        return Err(LimitsError::IsDirectory);
    }
    Ok(Limits {
        sector: h.sector,
        size: h.size,
        stamp,
    })
}

// Finds a file by its path, under rule two, in an image whose date allows it at a time and by a greatest age: its
// sector, its size and the stamp of its volume. 20, 40, 41, 42, then as `find_path`, then 43. Time and age count
// 100 ns, the time from the start of 1601 on, as a stamp does.
// (No `Table`: the root's region is read here. Time and age are two of the caller's numbers.)
pub fn load_limits(
    w: &[u8],
    first: Sector,
    path: &[u8],
    time: u64,
    age: u64,
) -> Result<Limits, LimitsError>
    ensures answer { told result ≡ load_of w.now first path.now time age }
    ensures limits { answered (told result) ≡ limits_of w.now first path.now time age }
{
    let volume = volume_in(w, first)?;
    let stamp = date_in_time(volume, time, age)?;
    let table = Table {
        window: w,
        first,
        region: volume.root,
    };
    let entry = read_path::find_path_two(table, path)?;
    load_file(entry.header, stamp)
}
