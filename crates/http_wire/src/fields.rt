//! The field lines of a head that lies in a buffer (RFC 9110 section 5).
ghost use Rattle.std.specs.Prelude.{◌≡◌, ◌≢◌, ◌&&◌, codes, ◌↔◌, ◌++◌, ◌∷◌, ◌<◌, [], List, false, ℕ, All, IsTrue, IfSome, MatchOption, length, nat_le, take};
ghost use Rattle.std.specs.List.{list_all};
ghost use Rattle.std.specs.Option.{option_map};
ghost use Rattle.std.specs.Str.{str_eq_ignore_ascii_case};
ghost use Rattle.httparse.specs.Spans.{IsHeaderWithin, header_bytes};
ghost use Rattle.head_view.specs.Lines.{AreWithin, lines_at, has_name, values_of};
ghost use Rattle.http_wire.specs.Fields.{is_same, is_comma, trimmed, elements, lists, is_listed, is_hop_by_hop, goes_on, HaveSameOptions, HoldOptions, IsOnlyOption};

use httparse::spans::HeaderSpan;
use px_base::fold_equal;

/// Whether the line has this name, without case.
pub(crate) fn is_named(buf: &[u8], line: &HeaderSpan, name: &[u8]) -> bool
    requires { IsHeaderWithin (length buf.now) line.now }
    ensures { result ≡ has_name name.now (header_bytes buf.now line.now) }
{
    fold_equal(line.name.of(buf), name)
}

/// The value of the first line with this name, and the lines behind it.
pub(crate) fn first_named<'a, 'b>(
    buf: &'a [u8],
    lines: &'b [HeaderSpan],
    name: &[u8],
) -> Option<(&'a [u8], &'b [HeaderSpan])>
    requires { AreWithin buf.now lines.now }
    ensures { MatchOption result
        (values_of name.now (lines_at buf.now lines.now) ≡ [])
        (λ first. AreWithin buf.now first.1.now
        × (values_of name.now (lines_at buf.now lines.now) ≡ first.0.now ∷ values_of name.now (lines_at buf.now first.1.now))) }
{
    let mut left = lines;
    while let Some((line, rest)) = left.split_first() {
        if is_named(buf, line, name) {
            return Some((line.value.of(buf), rest));
        }
        left = rest;
    }
    None
}

/// The value of the last line with this name.
pub(crate) fn last_value<'a>(buf: &'a [u8], lines: &[HeaderSpan], name: &[u8]) -> Option<&'a [u8]>
    requires { AreWithin buf.now lines.now }
    ensures { MatchOption result
        (values_of name.now (lines_at buf.now lines.now) ≡ [])
        (λ v. (front : List (List ℕ)) × (values_of name.now (lines_at buf.now lines.now) ≡ front ++ v.now ∷ [])) }
{
    let mut found = None;
    for line in lines {
        if is_named(buf, line, name) {
            found = Some(line.value.of(buf));
        }
    }
    found
}

/// The value of the only line with this name.
pub(crate) fn only_value<'a>(buf: &'a [u8], lines: &[HeaderSpan], name: &[u8]) -> Option<&'a [u8]>
    requires { AreWithin buf.now lines.now }
    ensures { MatchOption result
        ((v : List ℕ) → values_of name.now (lines_at buf.now lines.now) ≢ v ∷ [])
        (λ v. values_of name.now (lines_at buf.now lines.now) ≡ v.now ∷ []) }
{
    let mut found = None;
    for line in lines {
        if is_named(buf, line, name) {
            if found.is_some() {
                return None;
            }
            found = Some(line.value.of(buf));
        }
    }
    found
}

/// Whether no line has this name.
pub(crate) fn has_none(buf: &[u8], lines: &[HeaderSpan], name: &[u8]) -> bool
    requires { AreWithin buf.now lines.now }
    ensures { IsTrue result ↔ (values_of name.now (lines_at buf.now lines.now) ≡ []) }
{
    first_named(buf, lines, name).is_none()
}

/// Whether each line with this name has this value.
pub(crate) fn has_only(buf: &[u8], lines: &[HeaderSpan], name: &[u8], value: &[u8]) -> bool
    requires { AreWithin buf.now lines.now }
    ensures { result ≡ list_all (λ v. is_same v value.now) (values_of name.now (lines_at buf.now lines.now)) }
{
    for line in lines {
        if is_named(buf, line, name) && line.value.of(buf) != value {
            return false;
        }
    }
    true
}

/// Whether the text begins with these bytes, without case.
pub(crate) fn begins_with(text: &[u8], prefix: &[u8]) -> bool
    ensures { result ≡ (nat_le (length prefix.now) (length text.now) && str_eq_ignore_ascii_case (take (length prefix.now) text.now) prefix.now) }
{
    text.len() >= prefix.len() && fold_equal(&text[..prefix.len()], prefix)
}

/// The text without the blanks round it.
pub(crate) fn trim(text: &[u8]) -> &[u8]
    ensures { result.now ≡ trimmed text.now }
{
    text.trim_ascii()
}

/// What the `Connection` lines of a head list.
#[derive(Clone, Copy)]
pub(crate) struct Options<'a> {
    /// Some lines, with all `Connection` lines among them.
    lines: &'a [HeaderSpan],
    /// The one option, where they list no other.
    only: Option<&'a [u8]>,
}

/// Whether the line goes on, among `lines` with these options: it is no matter of one connection alone (RFC 9110
/// section 7.6.1).
pub(crate) fn is_end_to_end(
    buf: &[u8],
    lines: &[HeaderSpan],
    options: &Options<'_>,
    line: &HeaderSpan,
) -> bool
    requires options { HoldOptions buf.now options.now.lines.now (option_map (λ o. o.now) options.now.only) lines.now }
    requires one { IsHeaderWithin (length buf.now) line.now }
    ensures { result ≡ goes_on (lines_at buf.now lines.now) (header_bytes buf.now line.now) }
{
    !is_of_one_hop(buf, line) && !is_option(buf, lines, options, line.name.of(buf))
}

fn is_of_one_hop(buf: &[u8], line: &HeaderSpan) -> bool
    requires { IsHeaderWithin (length buf.now) line.now }
    ensures { result ≡ is_hop_by_hop (header_bytes buf.now line.now) }
{
    is_named(buf, line, b"Connection")
        || is_named(buf, line, b"Keep-Alive")
        || is_named(buf, line, b"Proxy-Connection")
        || is_named(buf, line, b"TE")
        || is_named(buf, line, b"Trailer")
        || is_named(buf, line, b"Transfer-Encoding")
        || is_named(buf, line, b"Upgrade")
}

/// Whether a `Connection` line among `lines`, which have these options, lists this name, without case.
#[tactic(auto, unfolding(crate::specs::Fields::HoldOptions))]
pub(crate) fn is_option(
    buf: &[u8],
    lines: &[HeaderSpan],
    options: &Options<'_>,
    name: &[u8],
) -> bool
    requires { HoldOptions buf.now options.now.lines.now (option_map (λ o. o.now) options.now.only) lines.now }
    ensures { result ≡ is_listed (lines_at buf.now lines.now) name.now }
{
    match options.only {
        Some(only) => fold_equal(only, name),
        None => is_in_connection(buf, options.lines, name),
    }
}

// Whether a `Connection` line lists this name, without case.
fn is_in_connection(buf: &[u8], lines: &[HeaderSpan], name: &[u8]) -> bool
    requires { AreWithin buf.now lines.now }
    ensures { result ≡ is_listed (lines_at buf.now lines.now) name.now }
{
    for line in lines {
        if is_option_line(buf, line, name) {
            return true;
        }
    }
    false
}

// Whether this is a `Connection` line that lists the name.
fn is_option_line(buf: &[u8], line: &HeaderSpan, name: &[u8]) -> bool
    requires { IsHeaderWithin (length buf.now) line.now }
    ensures { let field = header_bytes buf.now line.now in result ≡ (has_name (codes "Connection") field && lists name.now field.1) }
{
    is_named(buf, line, b"Connection") && is_among(line.value.of(buf), name)
}

/// The options of these lines.
#[tactic(auto, unfolding(crate::specs::Fields::HoldOptions))]
pub(crate) fn options_of<'a>(buf: &'a [u8], lines: &'a [HeaderSpan]) -> Options<'a>
    requires { AreWithin buf.now lines.now }
    ensures { HoldOptions buf.now result.lines.now (option_map (λ o. o.now) result.only) lines.now }
{
    let some = option_lines(buf, lines);
    Options {
        lines: some,
        only: only_option(buf, some),
    }
}

// The option that these lines list, where it is one.
fn only_option<'a>(buf: &'a [u8], lines: &[HeaderSpan]) -> Option<&'a [u8]>
    requires { AreWithin buf.now lines.now }
    ensures { IfSome result (λ only. IsOnlyOption (lines_at buf.now lines.now) only.now) }
{
    let Some(value) = only_value(buf, lines, b"Connection") else {
        return None;
    };
    match after_comma(value) {
        Some(_) => None,
        None => Some(trim(value)),
    }
}

// The lines from the first `Connection` line on: those before it list nothing.
fn option_lines<'a>(buf: &[u8], lines: &'a [HeaderSpan]) -> &'a [HeaderSpan]
    requires { AreWithin buf.now lines.now }
    ensures within { AreWithin buf.now result.now }
    ensures same { HaveSameOptions buf.now result.now lines.now }
{
    let mut left = lines;
    while let Some((line, rest)) = left.split_first() {
        if is_named(buf, line, b"Connection") {
            return left;
        }
        left = rest;
    }
    left
}

// Whether the list has this name as an element, without case.
fn is_among(text: &[u8], name: &[u8]) -> bool
    ensures { result ≡ lists name.now text.now }
{
    text.split(|b| *b == b',')
        .any(|part| is_element(part, name))
}

fn is_element(part: &[u8], name: &[u8]) -> bool
    ensures { result ≡ str_eq_ignore_ascii_case (trimmed part.now) name.now }
{
    fold_equal(trim(part), name)
}

/// The last element of a list, without the blanks round it.
pub(crate) fn last_element(text: &[u8]) -> &[u8]
    ensures { (front : List (List ℕ)) × (elements text.now ≡ front ++ result.now ∷ []) }
{
    let mut left = text;
    while let Some(rest) = after_comma(left) {
        left = rest;
    }
    trim(left)
}

/// What stands after the first comma of a list; none where the list has one element.
pub(crate) fn after_comma(text: &[u8]) -> Option<&[u8]>
    ensures { MatchOption result
        (elements text.now ≡ trimmed text.now ∷ [])
        (λ rest. (first : List ℕ) × (elements text.now ≡ first ∷ elements rest.now) × (length rest.now < length text.now)) }
{
    match cut_at_comma(text) {
        Some((_, rest)) => Some(rest),
        None => None,
    }
}

fn cut_at_comma(text: &[u8]) -> Option<(&[u8], &[u8])>
    ensures { MatchOption result
        (All (λ b. is_comma b ≡ false) text.now)
        (λ parts. (text.now ≡ parts.0.now ++ 44 ∷ parts.1.now) × All (λ b. is_comma b ≡ false) parts.0.now) }
{
    let at = text.iter().position(|b| *b == b',')?;
    Some((&text[..at], &text[at + 1..]))
}
