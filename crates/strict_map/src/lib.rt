// A map of four-byte units, for the strict check: a mark for each unit, 1 where an entry starts, 2 on its other
// units, 0 where none stands.
#![tactic(auto)]

ghost use Rattle.std.specs.Prelude.{◌≡◌, ◌≤◌, ◌<◌, eqb, length, get_or};
ghost use Rattle.strict_map.specs.inner.Map.{Tested, Marked};

// An entry starts at the unit.
pub fn is_start(map: &[u8], unit: usize) -> bool
    requires { unit < length map.now }
    ensures { result ≡ eqb (get_or map.now unit 0) 1 }
{
    map[unit] == 1
}

// The last unit and every fourth from the first are free: no entry of four units or more stands on any between them.
// (A `for` and no `all` over `step_by`: of the chain's run the proof of `Tested` did not close.)
pub fn is_free(map: &[u8], from: usize, to: usize) -> bool
    requires { (from < to) × (to ≤ length map.now) }
    ensures { Tested map.now from to result }
{
    if map[to - 1] != 0 {
        return false;
    }
    for unit in (from..to).step_by(4) {
        if map[unit] != 0 {
            return false;
        }
    }
    true
}

// An entry marked on its units.
pub fn mark(map: &mut [u8], from: usize, to: usize)
    requires { (from < to) × (to ≤ length map.old) }
    ensures { Marked map.old from to map.new }
{
    map[from] = 1;
    map[from + 1..to].fill(2);
}
