// The strict check without its code: what it answers, by definition, and which tables it accepts.
#![tactic(auto)]

ghost use Rattle.std.specs.Prelude.{◌≡◌, Err};
ghost use Rattle.units.specs.Told.{number_of};
ghost use Rattle.strict_rule.specs.Strict.{told};

use read_entry::ReadError;
use units::Offset;

// Why the strict check accepts no table: it breaks the rule (specs/Accepts.antt), or the check cannot end.
#[derive(Clone, Copy, Debug, PartialEq, Eq)]
pub enum CheckError {
    // 6: the scratch is not longer than the list.
    Room,
    // 23, 24: an offset on the way cannot be read.
    Read(ReadError),
    // 26: an entry is read when the list is full.
    WalkFull,
    // 30, 31, 32: with the offset of the entry at fault.
    Shared(Offset),
    OutOfOrder(Offset),
    BadPlace(Offset),
}

impl CheckError {
    // The refusal's number.
    pub fn number(self) -> u32
        ensures { result ≡ number_of (told (Err self)) }
    {
        match self {
            CheckError::Room => 6,
            CheckError::Read(e) => e.number(),
            CheckError::WalkFull => 26,
            CheckError::Shared(_) => 30,
            CheckError::OutOfOrder(_) => 31,
            CheckError::BadPlace(_) => 32,
        }
    }
}

impl From<ReadError> for CheckError {
    ghost use Rattle.strict_rule.specs.declared.CheckError.TheVariants.{Read};

    ghost from_gives = { λ e r. r ≡ Read e };

    fn from(e: ReadError) -> CheckError {
        CheckError::Read(e)
    }
}
