//! Numbers and addresses in words.
ghost use Rattle.std.specs.Prelude.{◌≡◌, ◌∷◌, ◌↔◌, ℕ, MatchOption, IsTrue, Contains};
ghost use Rattle.ip_net.specs.declared.ip.Ip.{Ip as Address};
ghost use Rattle.command_words.specs.Values.{IsCount, IsPort, IsAddress, IsPlainAddress, IsBracketed, IsBracketedBehind, IsPortBehind};

use crate::cuts::cut_at;
use ip_net::{Ip, read_ip};
use px_base::read_decimal;

/// A number of 1 to 10 digits.
pub(crate) fn count(text: &[u8]) -> Option<u64>
    ensures { MatchOption result ((n : ℕ) → ¬ (IsCount text.now n)) (IsCount text.now) }
{
    if text.len() > 10 {
        return None;
    }
    read_decimal(text)
}

// A port.
fn port(text: &[u8]) -> Option<u16>
    ensures { MatchOption result ((n : ℕ) → ¬ (IsPort text.now n)) (IsPort text.now) }
{
    let number = count(text)?;
    if number == 0 {
        return None;
    }
    u16::try_from(number).ok()
}

/// An address and a port, as `1.2.3.4:80` or `[::1]:80`.
pub(crate) fn address(text: &[u8]) -> Option<(Ip, u16)>
    ensures { MatchOption result
        ((ip : Address) (port : ℕ) → ¬ (IsAddress text.now ip port))
        (λ a. IsAddress text.now a.0 a.1) }
{
    match plain_address(text) {
        Some(found) => Some(found),
        None => bracketed(text),
    }
}

fn plain_address(text: &[u8]) -> Option<(Ip, u16)>
    ensures { MatchOption result
        ((ip : Address) (port : ℕ) → ¬ (IsPlainAddress text.now ip port))
        (λ a. IsPlainAddress text.now a.0 a.1) }
{
    let (host, number) = cut_at(text, b':')?;
    let ip = read_ip(host)?;
    let port = port(number)?;
    Some((ip, port))
}

fn bracketed(text: &[u8]) -> Option<(Ip, u16)>
    ensures { MatchOption result
        ((ip : Address) (port : ℕ) → ¬ (IsBracketed text.now ip port))
        (λ a. IsBracketed text.now a.0 a.1) }
{
    let (first, rest) = text.split_first()?;
    if *first != b'[' {
        return None;
    }
    bracketed_behind(rest)
}

// The same behind the bracket.
fn bracketed_behind(text: &[u8]) -> Option<(Ip, u16)>
    ensures { MatchOption result
        ((ip : Address) (port : ℕ) → ¬ (IsBracketedBehind text.now ip port))
        (λ a. IsBracketedBehind text.now a.0 a.1) }
{
    let (host, number) = cut_at(text, b']')?;
    if !host.contains(&b':') {
        return None;
    }
    let ip = read_ip(host)?;
    let port = port_behind(number)?;
    Some((ip, port))
}

// A port behind a colon.
fn port_behind(text: &[u8]) -> Option<u16>
    ensures { MatchOption result ((n : ℕ) → ¬ (IsPortBehind text.now n)) (IsPortBehind text.now) }
{
    let (first, rest) = text.split_first()?;
    if *first != b':' {
        return None;
    }
    port(rest)
}
