// Lent columns are cleared, whole or from a place on, and copied.
#![tactic(auto)]

ghost use Rattle.std.specs.Prelude.{◌≡◌, ◌++◌, ◌-◌, ◌≤◌, length, take, replicate};

// A number that a column holds, with its 0. A column is filled with clones of the 0: the two laws say that cloning it
// never fails and gives 0 again.
pub trait Zero: Copy {
    ghost ZERO: { Self };

    const ZERO: Self;

    ghost fills: { Self.is_infallible ZERO };

    ghost is_kept: { (y : Self) → Self.is_clone ZERO y → y ≡ ZERO };
}

impl Zero for u8 {
    ghost ZERO = { 0 };

    const ZERO: u8 = 0;

    ghost fills = { tt };

    ghost is_kept = { λ _ e. e };
}

impl Zero for u16 {
    ghost ZERO = { 0 };

    const ZERO: u16 = 0;

    ghost fills = { tt };

    ghost is_kept = { λ _ e. e };
}

impl Zero for u32 {
    ghost ZERO = { 0 };

    const ZERO: u32 = 0;

    ghost fills = { tt };

    ghost is_kept = { λ _ e. e };
}

impl Zero for u64 {
    ghost ZERO = { 0 };

    const ZERO: u64 = 0;

    ghost fills = { tt };

    ghost is_kept = { λ _ e. e };
}

// Zero everywhere.
pub fn clear<T: Zero>(xs: &mut [T])
    ensures { xs.new ≡ replicate (length xs.old) T.ZERO }
{
    xs.fill(T::ZERO);
}

// Zero from a place on.
pub fn clear_from<T: Zero>(xs: &mut [T], from: usize)
    requires { from ≤ length xs.old }
    ensures { xs.new ≡ take from xs.old ++ replicate (length xs.old - from) T.ZERO }
{
    xs[from..].fill(T::ZERO);
}

// One column into another of the same length.
pub fn copy<T: Copy>(from: &[T], to: &mut [T])
    requires { length to.old ≡ length from.now }
    ensures { to.new ≡ from.now }
{
    for i in 0..from.len() {
        to[i] = from[i];
    }
}
