//! How the fields of a head frame its body (RFC 9112 section 6).
ghost use Rattle.std.specs.Prelude.{◌≡◌, ◌↔◌, [], IsTrue, MatchResult, SomeIff, ◌⊎◌};
ghost use Rattle.std.specs.Str.Parse.{digits_value};
ghost use Rattle.head_view.specs.Lines.{AreWithin, lines_at};
ghost use Rattle.http_wire.specs.Framing.{lengths_of, encodings_of, codings, IsLength, AreOneLength, IsChunked, EndInChunked, AreChunkedAlone, IsFramingFault, IsFramed, first_length, framing_by};

use crate::fields::{
    after_comma, first_named, has_none, has_only, last_element, last_value, only_value, trim,
};
use body_codec::Framing;
use httparse::spans::HeaderSpan;
use px_base::{fold_equal, read_decimal};

/// What is wrong with the fields that frame a body.
#[derive(Clone, Copy, Debug, PartialEq, Eq)]
pub enum FramingFault {
    /// A `Content-Length` that isn't a number, two that differ, or a last coding that isn't `chunked`.
    BadLength,
    /// `Transfer-Encoding` beside `Content-Length`, or in version 1.0.
    BothLengths,
    /// A coding beside `chunked`.
    BadCoding,
}

/// The framing of a body in this minor version, and `otherwise` where no field tells it.
pub(crate) fn framing_of(
    buf: &[u8],
    lines: &[HeaderSpan],
    version: u8,
    otherwise: Framing,
) -> Result<Framing, FramingFault>
    requires { AreWithin buf.now lines.now }
    ensures { let fields = lines_at buf.now lines.now in MatchResult result
        (λ f. IsFramed version fields × (f ≡ framing_by (encodings_of fields) (lengths_of fields) otherwise))
        (IsFramingFault version fields) }
{
    let length = length_in(buf, lines)?;
    if has_none(buf, lines, b"Transfer-Encoding") {
        return match length {
            Some(n) => Ok(Framing::Length(n)),
            None => Ok(otherwise),
        };
    }
    if !is_last_chunked(buf, lines) {
        return Err(FramingFault::BadLength);
    }
    if length.is_some() || version == 0 {
        return Err(FramingFault::BothLengths);
    }
    if !is_chunked_alone(buf, lines) {
        return Err(FramingFault::BadCoding);
    }
    Ok(Framing::Chunked)
}

// The length that the `Content-Length` lines tell, where there are any.
fn length_in(buf: &[u8], lines: &[HeaderSpan]) -> Result<Option<u64>, FramingFault>
    requires { AreWithin buf.now lines.now }
    ensures { let lengths = lengths_of (lines_at buf.now lines.now) in MatchResult result
        (λ n. AreOneLength lengths × (n ≡ first_length lengths))
        (λ fault. (fault ≡ FramingFault.BadLength) × ¬ (AreOneLength lengths)) }
{
    let Some((value, rest)) = first_named(buf, lines, b"Content-Length") else {
        return Ok(None);
    };
    match length_of(value) {
        Some(n) if has_only(buf, rest, b"Content-Length", value) => Ok(Some(n)),
        _ => Err(FramingFault::BadLength),
    }
}

// The number that the text of a length tells.
fn length_of(text: &[u8]) -> Option<u64>
    ensures { SomeIff result (IsLength text.now) (digits_value 10 text.now) }
{
    let n = read_decimal(text)?;
    if text.len() <= 19 && n < 1 << 40 {
        Some(n)
    } else {
        None
    }
}

// Whether the last coding of the `Transfer-Encoding` lines is `chunked`, where there are any.
fn is_last_chunked(buf: &[u8], lines: &[HeaderSpan]) -> bool
    requires { AreWithin buf.now lines.now }
    ensures { let encodings = encodings_of (lines_at buf.now lines.now) in
        IsTrue result ↔ ((encodings ≡ []) ⊎ EndInChunked (codings encodings)) }
{
    match last_value(buf, lines, b"Transfer-Encoding") {
        Some(value) => is_chunked(last_element(value)),
        None => true,
    }
}

// Whether `chunked` is the only coding of the `Transfer-Encoding` lines.
fn is_chunked_alone(buf: &[u8], lines: &[HeaderSpan]) -> bool
    requires { AreWithin buf.now lines.now }
    ensures { IsTrue result ↔ AreChunkedAlone (codings (encodings_of (lines_at buf.now lines.now))) }
{
    let Some(value) = only_value(buf, lines, b"Transfer-Encoding") else {
        return false;
    };
    match after_comma(value) {
        Some(_) => false,
        None => is_chunked(trim(value)),
    }
}

fn is_chunked(coding: &[u8]) -> bool
    ensures { IsTrue result ↔ IsChunked coding.now }
{
    fold_equal(coding, b"chunked")
}
