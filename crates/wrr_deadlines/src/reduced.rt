//! What the weights have in common.

ghost use Rattle.std.specs.Prelude.{◌≡◌, ℕ, ◌<◌, ◌≤◌, ◌↔◌, length, IsTrue};
ghost use Rattle.std.specs.Int.{IsGcd};
ghost use Rattle.wrr_deadlines.specs.Reduced.{period_len};
ghost use Rattle.wrr_deadlines.specs.Choice.{HasUp};

use crate::choice::is_up;

/// The number of pops after which the schedule of these weights repeats: their sum, divided by
/// their greatest common divisor, and 0 where none is positive.
pub fn period_of(weights: &[u32]) -> u64
    requires { length weights.now ≤ 64 }
    ensures { result ≡ period_len weights.now }
{
    let mut sum = 0;
    let mut divisor = 0;
    for weight in weights {
        sum += u64::from(*weight);
        divisor = greatest_common_divisor(divisor, u64::from(*weight));
    }
    if sum == 0 { 0 } else { sum / divisor }
}

/// Euclid's steps.
fn greatest_common_divisor(a: u64, b: u64) -> u64
    ensures { IsGcd a b result }
{
    let mut x = a;
    let mut y = b;
    while y > 0 {
        let rest = x % y;
        x = y;
        y = rest;
    }
    x
}

/// Whether a child of positive weight is in the mask.
pub(crate) fn any_up(weights: &[u32], mask: u64) -> bool
    requires { length weights.now ≤ 64 }
    ensures found { IsTrue result → HasUp weights.now mask }
    ensures all { HasUp weights.now mask → IsTrue result }
{
    for (child, weight) in weights.iter().enumerate() {
        if *weight > 0 && is_up(mask, child as u32) {
            return true;
        }
    }
    false
}
