// The limits loader without its code: what it answers, by definition (specs/Limits.antt), and when it accepts.
#![tactic(auto)]

ghost use Rattle.std.specs.Prelude.{◌≡◌, Err};
ghost use Rattle.units.specs.Told.{number_of};
ghost use Rattle.limits_rule.specs.Limits.{told};

use layout_volume::NoVolume;
use read_path::PathError;
use units::Sector;

// What the loader finds: a file's first sector and size and the stamp of its volume, together.
#[derive(Clone, Copy, Debug, PartialEq, Eq)]
pub struct Limits {
    pub sector: Sector,
    pub size: u32,
    pub stamp: u64,
}

// Why the loader finds none of them.
#[derive(Clone, Copy, Debug, PartialEq, Eq)]
pub enum LimitsError {
    // 20: a mark of the descriptor differs or is cut.
    NoVolume,
    // 40, 41, 42: the volume has no date, or the time is before it, or it is older than it may be.
    NoDate,
    NotYet,
    TooOld,
    // 2, 21 to 25, 27, 28: the path leads to no entry.
    Path(PathError),
    // 43: the entry is a directory.
    IsDirectory,
}

impl LimitsError {
    // The refusal's number.
    #[tactic(auto, using(crate::proofs::Refused::same_number))]
    pub fn number(self) -> u32
        ensures { result ≡ number_of (told (Err self)) }
    {
        match self {
            LimitsError::NoVolume => 20,
            LimitsError::NoDate => 40,
            LimitsError::NotYet => 41,
            LimitsError::TooOld => 42,
            LimitsError::Path(e) => e.number(),
            LimitsError::IsDirectory => 43,
        }
    }
}

impl From<NoVolume> for LimitsError {
    ghost use Rattle.limits_rule.specs.declared.LimitsError.TheVariants as error;

    ghost from_gives = { λ e r. r ≡ error.NoVolume };

    fn from(_e: NoVolume) -> LimitsError {
        LimitsError::NoVolume
    }
}

impl From<PathError> for LimitsError {
    ghost use Rattle.limits_rule.specs.declared.LimitsError.TheVariants as error;

    ghost from_gives = { λ e r. r ≡ error.Path e };

    fn from(e: PathError) -> LimitsError {
        LimitsError::Path(e)
    }
}
