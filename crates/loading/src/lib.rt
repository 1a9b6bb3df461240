// What the programs over the limits loader share: a decimal number out of bytes, and an answer of the loader as a line
// on standard output.
#![tactic(auto)]

ghost use Rattle.std.specs.Prelude.{◌≡◌, [], ◌∷◌};
ghost use Rattle.loading.specs.Decimal.{told, with_digits, fitting, decimal_of};

use std::io;
use units::Sector;

// A number with one digit more, which a byte says; none where the byte is no digit or the number is past u64::MAX.
fn append_digit(n: u64, b: u8) -> Option<u64>
    ensures { told result ≡ fitting (with_digits n (b ∷ [])) }
{
    if b < b'0' || b'9' < b {
        return None;
    }
    n.checked_mul(10)?.checked_add(u64::from(b - b'0'))
}

// The number that bytes say in decimal digits, of which zeros may lead. None where there are no bytes, where one is no
// digit, and where the number is past u64::MAX.
// (By hand: `parse` would take a sign before the digits, which is refused here.)
pub fn read_decimal(s: &[u8]) -> Option<u64>
    ensures { told result ≡ decimal_of s.now }
{
    if s.is_empty() {
        return None;
    }
    let mut n = 0;
    for b in s {
        n = append_digit(n, *b)?;
    }
    Some(n)
}

// Loads a file's limits, and shows them on a line, sector, size and stamp; or the refusal's number.
// (By its parts and with no Display: the line is that of these programs alone. Its parameters are those of
// `load_limits`.)
pub fn show_limits(
    rt: &impl Print,
    w: &[u8],
    first: Sector,
    path: &[u8],
    time: u64,
    age: u64,
) -> io::Result<()> {
    match limits::load_limits(w, first, path, time, age) {
        Ok(found) => println!(rt; "{} {} {}", found.sector.number(), found.size, found.stamp),
        Err(e) => println!(rt; "refused {}", e.number()),
    }
}
