//! Decimals of any length, as the keys of a list are.

ghost use Rattle.std.specs.Prelude.{◌≡◌};
ghost use Rattle.std.specs.List.{list_all};
ghost use Rattle.std.specs.Char.{is_ascii_digit};
ghost use Rattle.std.specs.Ordering.{nat_cmp};
ghost use Rattle.dyn_config.specs.Walk.{is_decimal, plain, same_number, number_cmp};
ghost use Rattle.dyn_config.specs.Steps.{is_zero_first};

use crate::tables::is_same;
use std::cmp::Ordering;

/// Whether a key is a decimal: one digit or more, and nothing else.
pub(crate) fn is_decimal(key: &[u8]) -> bool
    ensures { result ≡ is_decimal key.now }
{
    key.len() >= 1 && are_digits(key)
}

fn are_digits(key: &[u8]) -> bool
    ensures { result ≡ list_all is_ascii_digit key.now }
{
    for byte in key {
        if !byte.is_ascii_digit() {
            return false;
        }
    }
    true
}

/// The order of two decimals: by their numbers, and equal numbers by their bytes.
pub(crate) fn number_order(a: &[u8], b: &[u8]) -> Ordering
    ensures { result ≡ number_cmp a.now b.now }
{
    let (x, y) = (plain(a), plain(b));
    match x.len().cmp(&y.len()) {
        Ordering::Less => Ordering::Less,
        Ordering::Greater => Ordering::Greater,
        Ordering::Equal => match x.cmp(y) {
            Ordering::Less => Ordering::Less,
            Ordering::Greater => Ordering::Greater,
            Ordering::Equal => a.cmp(b),
        },
    }
}

/// Whether two decimals are one number.
pub(crate) fn is_same_number(a: &[u8], b: &[u8]) -> bool
    ensures { result ≡ same_number a.now b.now }
{
    is_same(plain(a), plain(b))
}

/// A decimal without its leading zeros.
fn plain(key: &[u8]) -> &[u8]
    ensures { result.now ≡ plain key.now }
{
    let mut rest = key;
    while starts_with_zero(rest) {
        rest = &rest[1..];
    }
    rest
}

fn starts_with_zero(text: &[u8]) -> bool
    ensures { result ≡ is_zero_first text.now }
{
    !text.is_empty() && text[0] == b'0'
}
