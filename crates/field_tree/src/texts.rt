//! Numbers and flags that are spelled as texts.

ghost use Rattle.std.specs.Prelude.{◌≡◌, ◌≤◌, length, Some};
ghost use Rattle.field_tree.specs.Texts.{digits_of, is_negative, unsigned_part, signed_number, number_of, flag_of};

use crate::ValueFault;
use px_base::read_decimal;

/// The most digits of a number.
const DIGITS: usize = 19;

/// The size of the least number of 64 bits.
const LEAST: u64 = 1 << 63;

/// The number that `-` or nothing and then 1 to 19 digits spell. One past 64 bits is out of range.
pub fn read_number(text: &[u8]) -> Result<i64, ValueFault>
    ensures { result ≡ number_of text.now }
{
    signed(starts_with_minus(text), read_digits(without_minus(text)))
}

/// The flag that `true` or `false` spells.
pub fn read_flag(text: &[u8]) -> Result<bool, ValueFault>
    ensures { result ≡ flag_of text.now }
{
    if text == b"true".as_slice() {
        Ok(true)
    } else if text == b"false".as_slice() {
        Ok(false)
    } else {
        Err(ValueFault::Kind)
    }
}

fn starts_with_minus(text: &[u8]) -> bool
    ensures { result ≡ is_negative text.now }
{
    !text.is_empty() && text[0] == b'-'
}

fn without_minus(text: &[u8]) -> &[u8]
    ensures { result.now ≡ unsigned_part text.now }
{
    if starts_with_minus(text) {
        &text[1..]
    } else {
        text
    }
}

fn read_digits(text: &[u8]) -> Option<u64>
    ensures { result ≡ digits_of text.now }
{
    if text.len() > DIGITS {
        return None;
    }
    read_decimal(text)
}

fn signed(negative: bool, size: Option<u64>) -> Result<i64, ValueFault>
    ensures { result ≡ signed_number negative size }
{
    let Some(size) = size else {
        return Err(ValueFault::Kind);
    };
    if negative && size <= LEAST {
        Ok((-i128::from(size)) as i64)
    } else if !negative && size < LEAST {
        Ok(size as i64)
    } else {
        Err(ValueFault::Range)
    }
}
