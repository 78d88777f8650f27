//! The ranges of values.

ghost use Rattle.std.specs.Prelude.{◌≡◌, ◌==◌, not};
ghost use Rattle.std.specs.List.{list_all};
ghost use Rattle.dyn_config.specs.Names.{is_name_byte, is_name};
ghost use Rattle.dyn_config.specs.Values.{is_field_name, is_field_value, is_cookie_text, is_cookie_name, is_same_site, begins_with_slash, is_probe_path};
ghost use Rattle.dyn_config.specs.Shapes.{is_text_of, is_number_of};

use crate::schema::{NumberRange, TextRange};
use px_base::fold_equal;

/// Whether a name may be declared.
pub(crate) fn is_name(name: &[u8]) -> bool
    ensures { result ≡ is_name name.now }
{
    name.len() >= 1 && name.len() <= 255 && are_name_bytes(name)
}

fn are_name_bytes(name: &[u8]) -> bool
    ensures { result ≡ list_all is_name_byte name.now }
{
    for byte in name {
        if !is_name_byte(*byte) {
            return false;
        }
    }
    true
}

fn is_name_byte(byte: u8) -> bool
    ensures { result ≡ is_name_byte byte }
{
    byte >= 33 && byte <= 126 && byte != b'@'
}

/// Whether a text is the name of a field line.
pub(crate) fn is_field_name(text: &[u8]) -> bool
    ensures { result ≡ is_field_name text.now }
{
    httparse::is_token(text) && text.len() <= 65_535
}

/// Whether a text is the value of a field line.
pub(crate) fn is_field_value(text: &[u8]) -> bool
    ensures { result ≡ is_field_value text.now }
{
    httparse::is_header_value(text)
}

/// Whether an option takes a text.
pub(crate) fn is_text_in(range: TextRange, text: &[u8]) -> bool
    ensures { result ≡ is_text_of range text.now }
{
    match range {
        TextRange::Whatever => true,
        TextRange::CookieName => is_cookie_name(text),
        TextRange::CookieText => is_cookie_text(text),
        TextRange::SameSite => is_same_site(text),
        TextRange::ProbePath => is_probe_path(text),
    }
}

fn is_cookie_name(text: &[u8]) -> bool
    ensures { result ≡ is_cookie_name text.now }
{
    text == b"".as_slice() || is_field_name(text)
}

fn is_cookie_text(text: &[u8]) -> bool
    ensures { result ≡ is_cookie_text text.now }
{
    is_field_value(text) && has_no_semicolon(text)
}

fn has_no_semicolon(text: &[u8]) -> bool
    ensures { result ≡ list_all (λ b. not (b == 59)) text.now }
{
    for byte in text {
        if *byte == b';' {
            return false;
        }
    }
    true
}

fn is_same_site(text: &[u8]) -> bool
    ensures { result ≡ is_same_site text.now }
{
    text == b"".as_slice()
        || fold_equal(text, b"none".as_slice())
        || fold_equal(text, b"lax".as_slice())
        || fold_equal(text, b"strict".as_slice())
}

fn is_probe_path(text: &[u8]) -> bool
    ensures { result ≡ is_probe_path text.now }
{
    begins_with_slash(text) && is_field_value(text)
}

fn begins_with_slash(text: &[u8]) -> bool
    ensures { result ≡ begins_with_slash text.now }
{
    !text.is_empty() && text[0] == b'/'
}

/// Whether an option takes a number.
pub(crate) fn is_number_in(range: NumberRange, number: i64) -> bool
    ensures { result ≡ is_number_of range number }
{
    match range {
        NumberRange::All => true,
        NumberRange::Weight => number >= 0 && number <= 2_147_483_647,
        NumberRange::Percent => number >= 0 && number <= 100,
        NumberRange::Short => number >= 0 && number <= 65_535,
        NumberRange::Size => number >= -1,
    }
}
