// What a `&[u8]` is by its type, as a contract, and with it the law of 25 of `look_up` itself, and what a table gives
// that `check_table` itself accepts: no hypothesis is left. None of these functions is exported by a door; they stand
// here for what their contracts say.
#![tactic(auto)]

ghost use Rattle.std.specs.Prelude.{ℕ, ◌<◌, ◌≡◌, List, get_or, take};
ghost use Rattle.std.proofs.Math.Option.{some};
ghost use Rattle.units.specs.Told.{gives};
ghost use Rattle.read_entry.specs.Links.{absent_under};
ghost use Rattle.strict_rule.specs.Strict.{told};
ghost use Rattle.claims.specs.Reading.{Looped};
ghost use Rattle.claims.specs.Accepted.{Readable};

use read_entry::Table;
use read_lookup::{Found, LookupError};
use strict_rule::CheckError;

// Every element of a slice of bytes is below 256. (An element has to be read for the prover to know it of them.)
pub fn know_bytes(w: &[u8])
    ensures { (i : ℕ) → get_or w.now i 0 < 256 }
{
    if w.len() > 0 {
        let first = w[0];
        return;
    }
}

// Looks a name up under a rule, as `xdvdfs::look_up` does. It answers 25 exactly where neither 29 nor 2 is answered
// and the chain of headers, by the links that are absent under the rule, never ends, which is exactly where it would
// read an offset again.
// (A rule is a number, as it is there.)
pub fn look_up(table: Table<'_>, name: &[u8], rule: u32) -> Result<Found, LookupError>
    ensures { let t = table.entry in
        ((absent : List ℕ) → absent_under rule ≡ some absent →
        Looped absent t.window.now t.first t.region name.now result) }
{
    know_bytes(table.window);
    xdvdfs::look_up(table, name, rule)
}

// Checks a table, as `xdvdfs::check_table` does. Where it answers a number, readers agree on the table: each entry of
// the list that it leaves is found by its name, under rule one unless a link of 255 stands on the way, under rule two
// always, and nothing else is found under rule two.
pub fn check_table(
    table: Table<'_>,
    list: &mut [u32],
    scratch: &mut [u64],
) -> Result<usize, CheckError>
    ensures { let t = table.entry in
        ((k : ℕ) → told result ≡ gives k → Readable t.window.now t.first t.region (take k list.new)) }
{
    know_bytes(table.window);
    xdvdfs::check_table(table, list, scratch)
}
