//! Times that are spelled as texts.

ghost use Rattle.std.specs.Prelude.{◌≡◌, ℕ, ◌+◌, ◌-◌, ◌*◌, ◌^◌, ◌<◌, ◌≤◌, ◌↔◌, [], min, length, take, drop, IfOk, IsTrue, MatchResult, MatchOption};
ghost use Rattle.std.specs.List.{prefix_len};
ghost use Rattle.std.specs.Char.{is_ascii_digit, digit_value};
ghost use Rattle.std.specs.Str.Parse.{digits_value};
ghost use Rattle.field_tree.specs.Durations.{unit_text, unit_millis, unit_of, s_first, Spells, IsWithinADay, IsTimeOf, FirstPart, seconds_time};

use crate::ValueFault;

/// The milliseconds of a day.
const DAY: u64 = 86_400_000;

/// The time that a text spells, in milliseconds: decimals, each with `ms`, `s`, `m` or `h`, are added up.
/// Any other text, and a time under 1 millisecond or over 24 hours, is out of range.
pub fn read_duration(text: &[u8]) -> Result<u64, ValueFault>
    ensures duration { IsTimeOf text.now result }
    // No text spells two times.
    ensures only { IfOk result (λ millis. (other : ℕ) → Spells text.now other → other ≡ millis) }
{
    let mut rest = text;
    let mut total: u64 = 0;
    while !rest.is_empty() {
        let part = match first_part(rest) {
            Some(part) => part,
            None => return Err(ValueFault::Range),
        };
        total = total.saturating_add(part.millis);
        rest = after(rest, part.len);
    }
    if is_within_a_day(total) {
        Ok(total)
    } else {
        Err(ValueFault::Range)
    }
}

fn is_within_a_day(millis: u64) -> bool
    ensures { IsTrue result ↔ IsWithinADay millis }
{
    millis >= 1 && millis <= DAY
}

/// What stands after `len` bytes.
fn after(text: &[u8], len: usize) -> &[u8]
    requires { len ≤ length text.now }
    ensures { result.now ≡ drop len text.now }
{
    &text[len..]
}

/// A number of seconds as a time, in milliseconds: one under 1 or over a day is out of range.
pub(crate) fn of_seconds(seconds: i64) -> Result<u64, ValueFault>
    ensures { result ≡ seconds_time seconds }
{
    if seconds >= 1 && seconds <= 86_400 {
        Ok(1000 * seconds as u64)
    } else {
        Err(ValueFault::Range)
    }
}

/// The decimals and the unit that stand first in a text.
#[derive(Clone, Copy)]
struct Part {
    /// Milliseconds, or the greatest number of 64 bits where they are more.
    millis: u64,
    /// How many bytes it has.
    len: usize,
}

fn first_part(text: &[u8]) -> Option<Part>
    requires { 0 < length text.now }
    ensures { MatchOption result ((millis : ℕ) → ¬ Spells text.now millis)
        (λ part. FirstPart text.now part.millis part.len) }
{
    let digits = leading_digits(text);
    if digits.len == 0 {
        return None;
    }
    let unit = unit_at(after(text, digits.len))?;
    Some(Part {
        millis: digits.value.saturating_mul(unit.millis()),
        len: digits.len + unit.len(),
    })
}

/// The decimal digits that stand first in a text.
#[derive(Clone, Copy)]
struct Digits {
    /// The number that they spell, or the greatest of 64 bits where that is less.
    value: u64,
    len: usize,
}

fn leading_digits(text: &[u8]) -> Digits
    ensures len { result.len ≡ prefix_len is_ascii_digit text.now }
    ensures within { result.len ≤ length text.now }
    ensures value { result.value ≡ min (digits_value 10 (take result.len text.now)) (2 ^ 64 - 1) }
{
    let mut value: u64 = 0;
    for (len, byte) in text.iter().enumerate() {
        if !byte.is_ascii_digit() {
            return Digits { value, len };
        }
        value = with_digit(value, *byte);
    }
    Digits {
        value,
        len: text.len(),
    }
}

fn with_digit(value: u64, digit: u8) -> u64
    requires { IsTrue (is_ascii_digit digit) }
    ensures { result ≡ min (value * 10 + digit_value digit) (2 ^ 64 - 1) }
{
    value
        .saturating_mul(10)
        .saturating_add(u64::from(digit - b'0'))
}

/// A unit of time.
#[derive(Clone, Copy)]
enum TimeUnit {
    Milliseconds,
    Seconds,
    Minutes,
    Hours,
}

impl TimeUnit {
    fn millis(self) -> u64
        ensures { result ≡ unit_millis self }
    {
        match self {
            TimeUnit::Milliseconds => 1,
            TimeUnit::Seconds => 1000,
            TimeUnit::Minutes => 60_000,
            TimeUnit::Hours => 3_600_000,
        }
    }

    fn len(self) -> usize
        ensures { result ≡ length (unit_text self) }
    {
        match self {
            TimeUnit::Milliseconds => 2,
            TimeUnit::Seconds => 1,
            TimeUnit::Minutes => 1,
            TimeUnit::Hours => 1,
        }
    }
}

fn unit_at(text: &[u8]) -> Option<TimeUnit>
    ensures { result ≡ unit_of text.now }
{
    if text.is_empty() {
        return None;
    }
    if text[0] == b'm' {
        if starts_with_s(&text[1..]) {
            Some(TimeUnit::Milliseconds)
        } else {
            Some(TimeUnit::Minutes)
        }
    } else if text[0] == b's' {
        Some(TimeUnit::Seconds)
    } else if text[0] == b'h' {
        Some(TimeUnit::Hours)
    } else {
        None
    }
}

fn starts_with_s(text: &[u8]) -> bool
    ensures { result ≡ s_first text.now }
{
    !text.is_empty() && text[0] == b's'
}
