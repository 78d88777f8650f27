//! The escapes of a path.
ghost use Rattle.std.specs.Prelude.{◌≡◌, ◌≢◌, ℕ, ◌+◌, ◌<◌, ◌↔◌, ◌++◌, ◌∷◌, [], List, length, slice_index, IsTrue, MatchOption, IfOk, OnOk};
ghost use Rattle.std.specs.Char.{digit_value, is_ascii_hexdigit};
ghost use Rattle.path_norm.specs.Escapes.{Piece, escape, IsPiece, spelled, written, AreSegment, segment_text, segment_written, is_unreserved, IsBadEscape, HasWholeEscapes, IsFirstBadEscape};
ghost use Rattle.path_norm.specs.Normal.{IsSlashless};

use super::Memory;

// The first `%` without two hexadecimal digits after it.
pub(crate) fn first_bad_escape(path: &[u8]) -> Option<usize>
    ensures { MatchOption result (HasWholeEscapes path.now) (IsFirstBadEscape path.now) }
{
    for at in 0..path.len() {
        if path[at] == b'%' && !has_digits_after(path, at) {
            return Some(at);
        }
    }
    None
}

// Whether two hexadecimal digits follow this place.
fn has_digits_after(path: &[u8], at: usize) -> bool
    requires { at < length path.now }
    ensures { IsTrue result ↔ IsTrue (is_ascii_hexdigit (slice_index path.now (at + 1)))
        × IsTrue (is_ascii_hexdigit (slice_index path.now (at + 2))) }
{
    match &path[at..] {
        [_, high, low, ..] => high.is_ascii_hexdigit() && low.is_ascii_hexdigit(),
        _ => false,
    }
}

// Appends the normal text of a segment.
pub(crate) fn write_segment(segment: &[u8], out: &mut Vec<u8>) -> Result<(), Memory>
    requires whole { HasWholeEscapes segment.now }
    requires slashless { IsSlashless segment.now }
    ensures { OnOk result ((pieces : List Piece) × AreSegment pieces
        × (segment.now ≡ segment_text pieces)
        × (out.new.items ≡ out.old.items ++ segment_written pieces)) }
{
    let mut rest = segment;
    while !rest.is_empty() {
        rest = write_piece(rest, out)?;
    }
    Ok(())
}

// Appends the normal text of the first piece, and gives what follows it.
fn write_piece<'a>(rest: &'a [u8], out: &mut Vec<u8>) -> Result<&'a [u8], Memory>
    requires some { 0 < length rest.now }
    requires whole { HasWholeEscapes rest.now }
    requires slashless { IsSlashless rest.now }
    ensures { IfOk result (λ after. (piece : Piece) × IsPiece piece
        × (rest.now ≡ spelled piece ++ after.now)
        × (out.new.items ≡ out.old.items ++ written piece)) }
{
    if rest[0] == b'%' {
        write_escape(rest[1], rest[2], out)?;
        Ok(&rest[3..])
    } else {
        out.push(rest[0])?;
        Ok(&rest[1..])
    }
}

// Appends the normal text of an escape.
fn write_escape(high: u8, low: u8, out: &mut Vec<u8>) -> Result<(), Memory>
    requires high { IsTrue (is_ascii_hexdigit high) }
    requires low { IsTrue (is_ascii_hexdigit low) }
    ensures { OnOk result (out.new.items ≡ out.old.items ++ written (escape high low)) }
{
    let octet = hex_value(high) * 16 + hex_value(low);
    if needs_no_escape(octet) {
        out.push(octet)?;
    } else {
        out.extend_from_slice(&[b'%', high.to_ascii_uppercase(), low.to_ascii_uppercase()])?;
    }
    Ok(())
}

fn hex_value(digit: u8) -> u8
    requires { IsTrue (is_ascii_hexdigit digit) }
    ensures value { result ≡ digit_value digit }
    ensures small { result < 16 }
{
    match digit {
        b'0'..=b'9' => digit - b'0',
        b'A'..=b'F' => digit - b'A' + 10,
        _ => digit - b'a' + 10,
    }
}

// Whether the byte is unreserved (RFC 3986 section 2.3).
fn needs_no_escape(byte: u8) -> bool
    ensures { result ≡ is_unreserved byte }
{
    byte.is_ascii_alphanumeric() || byte == b'-' || byte == b'.' || byte == b'_' || byte == b'~'
}
