//! Which values a matcher takes.
ghost use Rattle.std.specs.Prelude.{◌≡◌, ◌≢◌, ◌≤◌, ◌<◌, ◌↔◌, length, IsTrue, true};
ghost use Rattle.std.specs.List.{AllByRecursion};
ghost use Rattle.rule_lang.specs.Matchers.{TakesCount, TakesKey, TakesValue, IsToken, is_token_byte as is_byte_of_token, AreLineBytes, IsHostText, IsRooted};

use crate::Matcher;

/// Whether a call of this matcher may have so many values.
pub fn takes_count(matcher: Matcher, count: usize) -> bool
    ensures { IsTrue result ↔ TakesCount matcher count }
{
    match matcher {
        Matcher::Header | Matcher::HeaderRegexp | Matcher::QueryRegexp => count == 2,
        Matcher::Query => count == 1 || count == 2,
        Matcher::Host
        | Matcher::HostRegexp
        | Matcher::Method
        | Matcher::Path
        | Matcher::PathPrefix
        | Matcher::PathRegexp
        | Matcher::ClientIp => count == 1,
    }
}

/// Whether the matcher takes this key: the name of a field, or of a query's pair.
pub fn takes_key(matcher: Matcher, key: &[u8]) -> bool
    ensures { IsTrue result ↔ TakesKey matcher key.now }
{
    match matcher {
        Matcher::Header | Matcher::HeaderRegexp => is_token(key),
        Matcher::Query | Matcher::QueryRegexp => !key.is_empty(),
        Matcher::Host
        | Matcher::HostRegexp
        | Matcher::Method
        | Matcher::Path
        | Matcher::PathPrefix
        | Matcher::PathRegexp
        | Matcher::ClientIp => true,
    }
}

/// Whether the matcher takes this value.
pub fn takes_value(matcher: Matcher, value: &[u8]) -> bool
    ensures { IsTrue result ↔ TakesValue matcher value.now }
{
    match matcher {
        Matcher::Header => are_line_bytes(value),
        Matcher::Host => is_host_text(value),
        Matcher::Method => is_token(value),
        Matcher::Path | Matcher::PathPrefix => is_rooted(value),
        Matcher::HeaderRegexp | Matcher::HostRegexp | Matcher::PathRegexp | Matcher::QueryRegexp =>
            value.len() <= 512,
        Matcher::Query => true,
        Matcher::ClientIp => !value.is_empty() && value.len() <= 64,
    }
}

fn is_token(text: &[u8]) -> bool
    ensures { IsTrue result ↔ IsToken text.now }
{
    !text.is_empty() && are_token_bytes(text)
}

fn are_token_bytes(text: &[u8]) -> bool
    ensures { IsTrue result ↔ AllByRecursion (λ b. is_byte_of_token b ≡ true) text.now }
{
    text.iter().all(|byte| is_token_byte(*byte))
}

fn is_token_byte(byte: u8) -> bool
    ensures { result ≡ is_byte_of_token byte }
{
    byte.is_ascii_alphanumeric() || b"!#$%&'*+-.^_`|~".contains(&byte)
}

fn are_line_bytes(text: &[u8]) -> bool
    ensures { IsTrue result ↔ AreLineBytes text.now }
{
    text.iter()
        .all(|byte| *byte != 0 && *byte != b'\n' && *byte != b'\r')
}

fn is_host_text(text: &[u8]) -> bool
    ensures { IsTrue result ↔ IsHostText text.now }
{
    !text.is_empty() && text.len() <= 253 && are_visible(text)
}

fn are_visible(text: &[u8]) -> bool
    ensures { IsTrue result ↔ AllByRecursion (λ b. (33 ≤ b) × (b ≤ 126)) text.now }
{
    text.iter().all(|byte| *byte >= 33 && *byte <= 126)
}

fn is_rooted(text: &[u8]) -> bool
    ensures { IsTrue result ↔ IsRooted text.now }
{
    matches!(text, [b'/', ..])
}
