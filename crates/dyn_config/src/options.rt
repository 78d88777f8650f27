//! The values of a table's options.

ghost use Rattle.std.specs.Prelude.{◌≡◌, ◌≤◌, [], IfOk, nat_le};
ghost use Rattle.std.specs.Option.{option_copied};
ghost use Rattle.dyn_config.specs.Shapes.{is_text_of, is_number_of};
ghost use Rattle.dyn_config.specs.Readings.{value_under, has_option, text_in_or, text_or, number_or, natural, natural_or, flag_or, time_or, is_other};

use crate::ranges::{is_number_in, is_text_in};
use crate::schema::{NumberRange, TextRange};
use crate::tables::{is_same, next_under};
use field_tree::{Style, Tree};
use px_base::{Bytes, Memory};
use std::alloc::Global;

/// The value of an option, its key compared without case.
pub(crate) fn value_under<'a>(key: &[u8], tree: &'a Tree) -> Option<&'a Tree>
    ensures { option_copied result ≡ value_under key.now tree.now }
{
    let Some(fields) = tree.table() else {
        return None;
    };
    match next_under(fields, key, 0) {
        Some(at) => Some(fields.value(at)),
        None => None,
    }
}

pub(crate) fn has_option(key: &[u8], tree: &Tree) -> bool
    ensures { result ≡ has_option key.now tree.now }
{
    match value_under(key, tree) {
        Some(_) => true,
        None => false,
    }
}

/// The text of an option where it is there and in the range, else the default.
fn text_in_range<'a>(range: TextRange, default: &'a [u8], key: &[u8], tree: &'a Tree) -> &'a [u8]
    ensures { result.now ≡ text_in_or (is_text_of range) default.now (value_under key.now tree.now) }
{
    match value_under(key, tree) {
        None => default,
        Some(value) => match value.text() {
            Ok(text) => {
                if is_text_in(range, text) {
                    text
                } else {
                    default
                }
            }
            Err(_) => default,
        },
    }
}

/// A copy of the text of an option where it is there and in the range, else of the default.
pub(crate) fn ranged_text(
    alloc: Global,
    range: TextRange,
    default: &[u8],
    key: &[u8],
    tree: &Tree,
) -> Result<Bytes, Memory>
    ensures { IfOk result (λ text. text ≡ text_in_or (is_text_of range) default.now (value_under key.now tree.now)) }
{
    let text = text_in_range(range, default, key, tree);
    Bytes::from_slice(alloc, text)
}

/// A copy of the text of an option, empty where it is absent.
pub(crate) fn text_under(alloc: Global, key: &[u8], tree: &Tree) -> Result<Bytes, Memory>
    ensures { IfOk result (λ text. text ≡ text_or [] (value_under key.now tree.now)) }
{
    let text = text_in_range(TextRange::Whatever, b"", key, tree);
    Bytes::from_slice(alloc, text)
}

/// Whether an option is there with another text than this.
pub(crate) fn is_other(text: &[u8], key: &[u8], tree: &Tree) -> bool
    ensures { result ≡ is_other text.now (value_under key.now tree.now) }
{
    let found = text_in_range(TextRange::Whatever, text, key, tree);
    !is_same(found, text)
}

pub(crate) fn number_under(
    style: Style,
    range: NumberRange,
    default: i64,
    key: &[u8],
    tree: &Tree,
) -> i64
    ensures { result ≡ number_or (is_number_of range) default style (value_under key.now tree.now) }
{
    match value_under(key, tree) {
        None => default,
        Some(value) => match value.number(style) {
            Ok(number) => {
                if is_number_in(range, number) {
                    number
                } else {
                    default
                }
            }
            Err(_) => default,
        },
    }
}

/// The number of an option where it is there and from 0 to `most`, else the default.
pub(crate) fn natural_under(style: Style, most: u32, default: u32, key: &[u8], tree: &Tree) -> u32
    requires { default ≤ most }
    ensures number { result ≡ natural_or (λ n. nat_le n most) default style (value_under key.now tree.now) }
    ensures within { result ≤ most }
{
    match value_under(key, tree) {
        None => default,
        Some(value) => match value.number(style) {
            Ok(number) => natural(most, default, number),
            Err(_) => default,
        },
    }
}

fn natural(most: u32, default: u32, number: i64) -> u32
    requires { default ≤ most }
    ensures number { result ≡ natural (λ n. nat_le n most) default number }
    ensures within { result ≤ most }
{
    if number >= 0 && number <= i64::from(most) {
        number as u32
    } else {
        default
    }
}

pub(crate) fn flag_under(style: Style, default: bool, key: &[u8], tree: &Tree) -> bool
    ensures { result ≡ flag_or default style (value_under key.now tree.now) }
{
    match value_under(key, tree) {
        None => default,
        Some(value) => match value.flag(style) {
            Ok(flag) => flag,
            Err(_) => default,
        },
    }
}

/// The time of an option, in milliseconds.
pub(crate) fn time_under(style: Style, default: u64, key: &[u8], tree: &Tree) -> u64
    ensures { result ≡ time_or default style (value_under key.now tree.now) }
{
    match value_under(key, tree) {
        None => default,
        Some(value) => match value.duration(style) {
            Ok(time) => {
                if time >= 1 && time <= 86_400_000 {
                    time
                } else {
                    default
                }
            }
            Err(_) => default,
        },
    }
}
