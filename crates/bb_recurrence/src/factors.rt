//! Prime divisors, by trial division.
ghost use Rattle.std.specs.Prelude.{◌≡◌, ◌+◌, ◌%◌, ◌<◌, ◌≤◌};
ghost use Rattle.bb_recurrence.specs.Factors.{HasNoneBelow, IsPartWithout};

/// The number without all its factors `divisor`.
pub(crate) fn without(number: u64, divisor: u64) -> u64
    requires above { 1 < divisor }
    requires some { 0 < number }
    ensures { IsPartWithout number divisor result }
{
    let mut rest = number;
    while rest % divisor == 0 {
        rest /= divisor;
    }
    rest
}

/// The next divisor to try: the next number, or the number itself if it can have no other.
pub(crate) fn next_divisor(number: u64, divisor: u64) -> u64
    requires above { 1 < divisor }
    requires below { divisor < number }
    requires none { HasNoneBelow number divisor }
    requires other { number % divisor ≡ 0 → ⊥ }
    ensures none { HasNoneBelow number result }
    ensures later { divisor < result }
    ensures within { result ≤ number }
{
    if divisor > number / divisor {
        number
    } else {
        divisor + 1
    }
}
