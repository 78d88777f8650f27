//! Bytes as printable ASCII: `\r`, `\n`, `\\`, `\x` and two lower-case digits, and each other printable byte for itself.
ghost use Rattle.std.specs.Prelude.{◌≡◌, ◌≢◌, ◌++◌, ◌∷◌, [], ◌+◌, ◌*◌, ◌<◌, ℕ, List, IfOk, OnOk, OnErr, MatchOption};
ghost use Rattle.replay_script.specs.Escapes.{IsTextOf, BeginsWithPiece, hex_digit, escaped, is_printable as is_printable_byte};

use px_base::Memory;
use std::alloc::Global;

/// The bytes that a text stands for; none where it has a byte that isn't printable or another escape.
pub fn unescape(alloc: Global, text: &[u8]) -> Result<Option<Vec<u8>>, Memory>
    ensures { IfOk result (λ found. MatchOption found
        ((bytes : List ℕ) → ¬ (IsTextOf text.now bytes))
        (λ bytes. IsTextOf text.now bytes.items)) }
{
    let mut bytes = Vec::new(alloc);
    let mut rest = text;
    while !rest.is_empty() {
        match first_piece(rest) {
            Some((byte, more)) => {
                bytes.push(byte)?;
                rest = more;
            }
            None => return Ok(None),
        }
    }
    Ok(Some(bytes))
}

// The byte that the piece at the front stands for, and what follows the piece.
fn first_piece(text: &[u8]) -> Option<(u8, &[u8])>
    ensures { MatchOption result
        ((byte : ℕ) (rest : List ℕ) → ¬ (BeginsWithPiece text.now byte rest))
        (λ piece. BeginsWithPiece text.now piece.0 piece.1.now) }
{
    let (byte, rest) = text.split_first()?;
    if *byte == b'\\' {
        escape_piece(rest)
    } else if is_printable(*byte) {
        Some((*byte, rest))
    } else {
        None
    }
}

// The same behind a backslash.
fn escape_piece(text: &[u8]) -> Option<(u8, &[u8])>
    ensures { MatchOption result
        ((byte : ℕ) (rest : List ℕ) → ¬ (BeginsWithPiece (92 ∷ text.now) byte rest))
        (λ piece. BeginsWithPiece (92 ∷ text.now) piece.0 piece.1.now) }
{
    let (kind, rest) = text.split_first()?;
    match *kind {
        b'r' => Some((b'\r', rest)),
        b'n' => Some((b'\n', rest)),
        b'\\' => Some((b'\\', rest)),
        b'x' => hex_piece(rest),
        _ => None,
    }
}

// The same behind `\x`.
fn hex_piece(text: &[u8]) -> Option<(u8, &[u8])>
    ensures { MatchOption result
        ((byte : ℕ) (rest : List ℕ) → ¬ (BeginsWithPiece (92 ∷ 120 ∷ text.now) byte rest))
        (λ piece. BeginsWithPiece (92 ∷ 120 ∷ text.now) piece.0 piece.1.now) }
{
    let (high, rest) = text.split_first()?;
    let (low, rest) = rest.split_first()?;
    Some((hex_byte(*high, *low)?, rest))
}

// The byte of two digits.
fn hex_byte(high: u8, low: u8) -> Option<u8>
    ensures { MatchOption result
        ((h l : ℕ) → h < 16 → l < 16 → hex_digit h ≡ high → hex_digit l ≡ low → ⊥)
        (λ byte. (h : ℕ) × (l : ℕ) × (h < 16) × (l < 16) × (hex_digit h ≡ high) × (hex_digit l ≡ low) × (byte ≡ 16 * h + l)) }
{
    let high = hex_value(high)?;
    let low = hex_value(low)?;
    Some(16 * high + low)
}

fn hex_value(digit: u8) -> Option<u8>
    ensures { MatchOption result
        ((n : ℕ) → n < 16 → hex_digit n ≢ digit)
        (λ n. (n < 16) × (hex_digit n ≡ digit)) }
{
    match digit {
        b'0'..=b'9' => Some(digit - b'0'),
        b'a'..=b'f' => Some(digit - b'a' + 10),
        _ => None,
    }
}

fn is_printable(byte: u8) -> bool
    ensures { result ≡ is_printable_byte byte }
{
    byte >= b' ' && byte <= b'~'
}

/// Appends the text of bytes: `\r`, `\n` and `\\` for these three, `\x` and digits for what isn't printable. Where
/// memory runs out, a part of it may stand there.
pub fn escape(bytes: &[u8], out: &mut Vec<u8>) -> Result<(), Memory>
    ensures ok { OnOk result (out.new.items ≡ out.old.items ++ escaped bytes.now) }
    // What is written reads back as the bytes.
    ensures reads_back { IsTextOf (escaped bytes.now) bytes.now }
{
    for byte in bytes {
        escape_byte(*byte, out)?;
    }
    Ok(())
}

fn escape_byte(byte: u8, out: &mut Vec<u8>) -> Result<(), Memory>
    ensures { OnOk result (out.new.items ≡ out.old.items ++ escaped (byte ∷ [])) }
{
    match byte {
        b'\r' => out.extend_from_slice(b"\\r"),
        b'\n' => out.extend_from_slice(b"\\n"),
        b'\\' => out.extend_from_slice(b"\\\\"),
        _ if is_printable(byte) => out.extend_from_slice(&[byte]),
        _ => out.extend_from_slice(&[b'\\', b'x', digit_of(byte / 16), digit_of(byte % 16)]),
    }
}

fn digit_of(value: u8) -> u8
    requires { value < 16 }
    ensures { result ≡ hex_digit value }
{
    if value <= 9 {
        b'0' + value
    } else {
        b'a' - 10 + value
    }
}
