//! The URL of a server.
ghost use Rattle.std.specs.Prelude.{◌≡◌, ◌≢◌, ◌≤◌, ◌↔◌, ◌++◌, ◌∷◌, [], ℕ, List, All, IsTrue, MatchOption, MatchResult, IfSome, position, length, ◌<◌, true};
ghost use Rattle.service_graph.specs.Urls.{IsServerUrl, IsUrlFault, authority_text, is_slash, IsAuthority, IsNameHost, IsPort, IsPortPart, has_other_scheme as is_of_other_scheme, IsIpv6};

use px_base::{cut_at_colon, read_decimal};
use std::net::Ipv6Addr;

/// Why a text is no URL of a server.
#[derive(Clone, Copy, Debug, PartialEq, Eq)]
pub enum UrlFault {
    /// It begins with `https://` or `h2c://`.
    Scheme,
    /// It isn't a URL of a server for another reason.
    BadUrl,
}

/// What a server's URL says: its host as written, an IPv6 address with its brackets, and its port.
#[derive(Clone, Copy, Debug, PartialEq, Eq)]
pub struct ServerUrl<'a> {
    pub host: &'a [u8],
    pub port: u16,
}

/// Reads `http://`, a host, an optional `:` and port (80 where none is written), and an optional path, which has no effect.
///
/// The host is 1 to 253 letters, digits, `.`, `-` or `_`, or an IPv6 address in brackets (RFC 3986 section 3.2.2).
pub fn read_server_url(url: &[u8]) -> Result<ServerUrl<'_>, UrlFault>
    ensures { MatchResult result (λ u. IsServerUrl url.now u.host.now u.port) (IsUrlFault url.now) }
{
    match url.strip_prefix(b"http://") {
        Some(rest) => match authority_of(before_slash(rest)) {
            Some(server) => Ok(server),
            None => Err(UrlFault::BadUrl),
        },
        None => Err(fault_of(url)),
    }
}

// Why a text that doesn't begin with `http://` is no URL.
fn fault_of(url: &[u8]) -> UrlFault
    ensures { result ≡ UrlFault.Scheme ↔ is_of_other_scheme url.now ≡ true }
{
    if has_other_scheme(url) {
        UrlFault::Scheme
    } else {
        UrlFault::BadUrl
    }
}

fn has_other_scheme(url: &[u8]) -> bool
    ensures { result ≡ is_of_other_scheme url.now }
{
    url.starts_with(b"https://") || url.starts_with(b"h2c://")
}

// What stands before the first slash.
fn before_slash(text: &[u8]) -> &[u8]
    ensures { result.now ≡ authority_text text.now }
{
    match place_of_slash(text) {
        Some(at) => &text[..at],
        None => text,
    }
}

fn place_of_slash(text: &[u8]) -> Option<usize>
    ensures place { result ≡ position is_slash text.now }
    ensures within { IfSome result (λ at. at < length text.now) }
{
    text.iter().position(|byte| *byte == b'/')
}

// The server that an authority names.
fn authority_of(text: &[u8]) -> Option<ServerUrl<'_>>
    ensures { MatchOption result
        ((host : List ℕ) (port : ℕ) → ¬ (IsAuthority text.now host port))
        (λ s. IsAuthority text.now s.host.now s.port) }
{
    match text {
        [b'[', ..] => address_of(text),
        _ => name_of(text),
    }
}

// The server of an authority that begins with a bracket: an IPv6 address, and a port after the closing bracket.
fn address_of(text: &[u8]) -> Option<ServerUrl<'_>>
    requires { (rest : List ℕ) × (text.now ≡ 91 ∷ rest) }
    ensures { MatchOption result
        ((host : List ℕ) (port : ℕ) → ¬ (IsAuthority text.now host port))
        (λ s. IsAuthority text.now s.host.now s.port) }
{
    match cut_at_bracket(&text[1..]) {
        Some((inner, after)) => {
            let host = &text[..inner.len() + 2];
            if !is_ipv6(inner) {
                return None;
            }
            match port_after(after) {
                Some(port) => Some(ServerUrl { host, port }),
                None => None,
            }
        }
        None => None,
    }
}

// What stands before the first closing bracket and what stands after it.
fn cut_at_bracket(text: &[u8]) -> Option<(&[u8], &[u8])>
    ensures { MatchOption result
        (All (λ b. b ≢ 93) text.now)
        (λ parts. (text.now ≡ parts.0.now ++ 93 ∷ parts.1.now) × All (λ b. b ≢ 93) parts.0.now) }
{
    let at = text.iter().position(|b| *b == b']')?;
    Some((&text[..at], &text[at + 1..]))
}

fn is_ipv6(text: &[u8]) -> bool
    ensures { IsTrue result ↔ IsIpv6 text.now }
{
    match Ipv6Addr::parse_ascii(text) {
        Ok(_) => true,
        Err(_) => false,
    }
}

// The port that stands behind a host: nothing means 80.
fn port_after(text: &[u8]) -> Option<u16>
    ensures { MatchOption result
        ((port : ℕ) → ¬ (IsPortPart text.now port))
        (IsPortPart text.now) }
{
    match text {
        [] => Some(80),
        [b':', digits @ ..] => port_of(digits),
        _ => None,
    }
}

// The server of another authority: a name, and a port after its colon.
fn name_of(text: &[u8]) -> Option<ServerUrl<'_>>
    requires { (rest : List ℕ) → text.now ≢ 91 ∷ rest }
    ensures { MatchOption result
        ((host : List ℕ) (port : ℕ) → ¬ (IsAuthority text.now host port))
        (λ s. IsAuthority text.now s.host.now s.port) }
{
    match cut_at_colon(text) {
        Some((host, digits)) => {
            if !is_name(host) {
                return None;
            }
            match port_of(digits) {
                Some(port) => Some(ServerUrl { host, port }),
                None => None,
            }
        }
        None => {
            if is_name(text) {
                Some(ServerUrl {
                    host: text,
                    port: 80,
                })
            } else {
                None
            }
        }
    }
}

fn is_name(host: &[u8]) -> bool
    ensures { IsTrue result ↔ IsNameHost host.now }
{
    !host.is_empty()
        && host.len() <= 253
        && host.iter().all(|b| b.is_ascii_alphanumeric() || *b == b'.' || *b == b'-' || *b == b'_')
}

// The port that the digits spell.
fn port_of(digits: &[u8]) -> Option<u16>
    ensures { MatchOption result
        ((port : ℕ) → ¬ (IsPort digits.now port))
        (λ port. IsPort digits.now port) }
{
    match read_decimal(digits) {
        Some(port) if port >= 1 && port <= 65_535 => Some(port as u16),
        _ => None,
    }
}
