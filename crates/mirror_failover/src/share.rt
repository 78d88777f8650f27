//! One mirror's share of the turns.

ghost use Rattle.std.specs.Prelude.{◌≡◌, ℕ, ◌+◌, ◌*◌, ◌^◌, ◌≤◌, if◌then◌else◌};
ghost use Rattle.std.specs.Int.{div_ceil};
ghost use Rattle.mirror_failover.specs.Mirrors.{mirror_count, selects};

/// How long the pattern of a mirror's turns is: whatever its percent, turn `n + 100` is like turn `n`.
const PATTERN: u64 = 100;

/// Whether a mirror of `percent` gets turn `n`; the first turn is 1.
pub fn selected(percent: u8, n: u64) -> bool
    requires share { percent ≤ 100 }
    requires first { 1 ≤ n }
    requires last { n ≤ 2 ^ 62 }
    ensures { result ≡ selects percent n }
{
    let percent = u64::from(percent);
    let before = (n - 1) % PATTERN;
    let count = (before * percent).div_ceil(100);
    100 * count < (before + 1) * percent
}

/// The law of the counters: at each turn the count rises exactly where the mirror gets that turn, and
/// after `n` turns it is the mirror's share of them, rounded up.
pub fn mirror_share()
    ensures none { (percent : ℕ) → mirror_count percent 0 ≡ 0 }
    ensures rises { (percent n : ℕ) →
        mirror_count percent (n + 1)
        ≡ mirror_count percent n + (if selects percent (n + 1) then 1 else 0) }
    ensures rounded_up { (percent n : ℕ) → percent ≤ 100 → mirror_count percent n ≡ div_ceil (n * percent) 100 }
{}
