//! Decimal digits of numbers below 2^64, read and printed.
ghost use Rattle.std.specs.Prelude.{◌≡◌, ◌+◌, ◌*◌, ◌++◌, ◌^◌, ◌<◌, ◌≤◌, length, drop, SomeIff, OnOk, OnErr};
ghost use Rattle.std.specs.Char.{digit_value};
ghost use Rattle.std.specs.Str.Parse.{digits_value};
ghost use Rattle.std.specs.Fmt.{decimal};
ghost use Rattle.px_base.specs.Decimals.{IsDecimal, IsSpellingOf};

use crate::Memory;

/// The number that 1 to 20 digits spell, where it is below 2^64. Leading zeros are digits.
pub fn read_decimal(text: &[u8]) -> Option<u64>
    ensures { SomeIff result (IsDecimal text.now) (digits_value 10 text.now) }
{
    if text.is_empty() || text.len() > 20 {
        return None;
    }
    let mut value = 0;
    for byte in text {
        value = with_digit(value, *byte)?;
    }
    Some(value)
}

// The number whose decimal is that of `value` and then this digit.
fn with_digit(value: u64, digit: u8) -> Option<u64>
    ensures { SomeIff result ((digit_value digit < 10) × (value * 10 + digit_value digit < 2 ^ 64))
        (value * 10 + digit_value digit) }
{
    if !digit.is_ascii_digit() {
        return None;
    }
    value.checked_mul(10)?.checked_add((digit - b'0') as u64)
}

/// Appends the digits of a number, without leading zeros. Where memory runs out nothing is appended.
pub fn print_decimal(n: u64, out: &mut Vec<u8>) -> Result<(), Memory>
    ensures ok { OnOk result (out.new.items ≡ out.old.items ++ decimal n) }
    ensures err { OnErr result (out.new.items ≡ out.old.items) }
    // What is printed reads back as the number.
    ensures spelling { IsSpellingOf n (decimal n) }
{
    let mut room = [0; 20];
    let at = write_digits(n, &mut room);
    out.extend_from_slice(&room[at..])
}

// Writes the digits to the end of the room, and answers where they begin.
fn write_digits(n: u64, room: &mut [u8]) -> usize
    requires { length room.old ≡ 20 }
    ensures within { result ≤ length room.new }
    ensures written { drop result room.new ≡ decimal n }
{
    let mut at = room.len();
    let mut left = n;
    while left >= 10 {
        at -= 1;
        room[at] = digit_of(left % 10);
        left /= 10;
    }
    at -= 1;
    room[at] = digit_of(left);
    at
}

// The digit for a number below ten.
fn digit_of(n: u64) -> u8
    requires { n < 10 }
    ensures { result ≡ 48 + n }
{
    b'0' + n as u8
}
