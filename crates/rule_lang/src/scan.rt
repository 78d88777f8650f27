//! The token at the front of a text.
ghost use Rattle.std.specs.Prelude.{◌≡◌, ◌≢◌, ℕ, ◌<◌, ◌≤◌, length, drop, slice_index, true, false, ◌↔◌, IsTrue, IfSome, IfNone};
ghost use Rattle.std.specs.Char.{is_ascii_alphabetic};
ghost use Rattle.rule_lang.specs.Tokens.{is_blank as is_blank_byte};
ghost use Rattle.rule_lang.specs.Scans.{FindsFirst, FoundWithin, Quotes, QuoteWithin, closed_by, first_bad};

use crate::TokenKind;

// What stands at the front of a text.
#[derive(Clone, Copy)]
pub(crate) enum Found {
    Token(TokenKind, usize),
    // The place to blame, counted from the front.
    Fault(usize),
}

// What stands after an opening double quote.
#[derive(Clone, Copy)]
pub(crate) enum Quote {
    Closed(usize),
    BadEscape(usize),
    Unclosed,
}

// What stands from a place on.
pub(crate) fn from_place(text: &[u8], place: usize) -> &[u8]
    requires { place ≤ length text.now }
    ensures { result.now ≡ drop place text.now }
{
    &text[place..]
}

// How many blanks stand at the front.
pub(crate) fn blanks(text: &[u8]) -> usize
    ensures within { result ≤ length text.now }
    ensures before { (k : ℕ) → k < result → is_blank_byte (slice_index text.now k) ≡ true }
    ensures stop { result < length text.now → is_blank_byte (slice_index text.now result) ≡ false }
{
    for (i, byte) in text.iter().enumerate() {
        if !is_blank(*byte) {
            return i;
        }
    }
    text.len()
}

fn is_blank(byte: u8) -> bool
    ensures { result ≡ is_blank_byte byte }
{
    byte == b' ' || byte == b'\t' || byte == b'\r' || byte == b'\n'
}

// The token at the front of a text that begins with no blank.
pub(crate) fn first(text: &[u8]) -> Found
    requires some { 0 < length text.now }
    requires no_blank { is_blank_byte (slice_index text.now 0) ≡ false }
    ensures finds { FindsFirst text.now result }
    ensures within { FoundWithin text.now result }
{
    match text[0] {
        b'!' => Found::Token(TokenKind::Not, 1),
        b'(' => Found::Token(TokenKind::Open, 1),
        b')' => Found::Token(TokenKind::Close, 1),
        b',' => Found::Token(TokenKind::Comma, 1),
        b'`' => raw(text),
        b'"' => quoted(text),
        byte => name_or_operator(text, byte),
    }
}

// A name, an operator, or nothing.
fn name_or_operator(text: &[u8], byte: u8) -> Found
    requires some { 0 < length text.now }
    requires first { byte ≡ slice_index text.now 0 }
    requires no_blank { is_blank_byte byte ≡ false }
    requires not { byte ≢ 33 }
    requires open { byte ≢ 40 }
    requires close { byte ≢ 41 }
    requires comma { byte ≢ 44 }
    requires raw { byte ≢ 96 }
    requires quote { byte ≢ 34 }
    ensures finds { FindsFirst text.now result }
    ensures within { FoundWithin text.now result }
{
    if byte.is_ascii_alphabetic() {
        Found::Token(TokenKind::Name, letters(text))
    } else if byte == b'|' && second_is(text, b'|') {
        Found::Token(TokenKind::Or, 2)
    } else if byte == b'&' && second_is(text, b'&') {
        Found::Token(TokenKind::And, 2)
    } else {
        Found::Fault(0)
    }
}

fn second_is(text: &[u8], byte: u8) -> bool
    requires some { 0 < byte }
    ensures { IsTrue result ↔ (slice_index text.now 1 ≡ byte) }
{
    text.len() > 1 && text[1] == byte
}

// How many letters stand at the front.
fn letters(text: &[u8]) -> usize
    ensures within { result ≤ length text.now }
    ensures before { (k : ℕ) → k < result → is_ascii_alphabetic (slice_index text.now k) ≡ true }
    ensures stop { is_ascii_alphabetic (slice_index text.now result) ≡ false }
{
    for (i, byte) in text.iter().enumerate() {
        if !byte.is_ascii_alphabetic() {
            return i;
        }
    }
    text.len()
}

// A value in backquotes.
fn raw(text: &[u8]) -> Found
    requires some { 0 < length text.now }
    requires first { slice_index text.now 0 ≡ 96 }
    ensures finds { FindsFirst text.now result }
    ensures within { FoundWithin text.now result }
{
    match closing(text) {
        Some(at) => Found::Token(TokenKind::Raw, at + 1),
        None => Found::Fault(0),
    }
}

// The place of the next backquote after the first byte.
fn closing(text: &[u8]) -> Option<usize>
    ensures found { IfSome result (λ at. (0 < at) × (at < length text.now) × (slice_index text.now at ≡ 96)
        × ((k : ℕ) → 0 < k → k < at → slice_index text.now k ≢ 96)) }
    ensures none { IfNone result ((k : ℕ) → 0 < k → k < length text.now → slice_index text.now k ≢ 96) }
{
    for (i, byte) in text.iter().enumerate() {
        if i > 0 && *byte == b'`' {
            return Some(i);
        }
    }
    None
}

// A value in double quotes.
fn quoted(text: &[u8]) -> Found
    requires some { 0 < length text.now }
    requires first { slice_index text.now 0 ≡ 34 }
    ensures finds { FindsFirst text.now result }
    ensures within { FoundWithin text.now result }
{
    match scan_quote(&text[1..]) {
        Quote::Closed(len) => Found::Token(TokenKind::Quoted, len + 2),
        Quote::BadEscape(at) => Found::Fault(at + 1),
        Quote::Unclosed => Found::Fault(0),
    }
}

// Reads up to the closing double quote.
fn scan_quote(body: &[u8]) -> Quote
    ensures reads { Quotes body.now result }
    ensures within { QuoteWithin body.now result }
{
    let mut rest = body;
    let mut at = 0;
    let mut bad = None;
    while !rest.is_empty() {
        let byte = rest[0];
        if byte == b'"' {
            return closed(at, bad);
        }
        if byte == b'\\' {
            if rest.len() < 2 {
                return Quote::Unclosed;
            }
            bad = bad_so_far(bad, at, rest[1]);
            at += 2;
            rest = from_place(rest, 2);
        } else {
            at += 1;
            rest = from_place(rest, 1);
        }
    }
    Quote::Unclosed
}

// The value's end, or its first bad escape.
fn closed(at: usize, bad: Option<usize>) -> Quote
    ensures { result ≡ closed_by at bad }
{
    match bad {
        Some(at) => Quote::BadEscape(at),
        None => Quote::Closed(at),
    }
}

// The first bad escape with one more escape at a place.
fn bad_so_far(bad: Option<usize>, at: usize, escaped: u8) -> Option<usize>
    ensures { result ≡ first_bad bad at escaped }
{
    match bad {
        Some(at) => Some(at),
        None if escaped == b'"' || escaped == b'\\' => None,
        None => Some(at),
    }
}
