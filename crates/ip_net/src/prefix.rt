//! The text of a network.
ghost use Rattle.std.specs.Prelude.{◌≡◌, ◌<◌, ◌==◌, ℕ, length, position, MatchOption, IfSome};
ghost use Rattle.std.specs.Net.Grammar.{IsIpText, IsNumber};
ghost use Rattle.std.specs.declared.net.ip_addr.IpAddr.{IpAddr};
ghost use Rattle.ip_net.specs.declared.ip.Ip.{Ip};
ghost use Rattle.ip_net.specs.Texts.{WritesNet, FirstBits, IsUnmapped, written_width as width_as_written, mapped_bits as bits_before};

use super::text::address_of;
use super::{Ip, Net};
use std::net::IpAddr;

/// Reads a network: an address, or an address, `/` and how many of its first bits count, at most 32
/// or 128. A mapped address counts the 96 bits before its IPv4 address too. None exactly where the
/// text is no network.
pub fn read_net(text: &[u8]) -> Option<Net>
    ensures reads { MatchOption result
        ((ip : Ip) (bits : ℕ) → ¬ (WritesNet text.now ip bits))
        (λ net. WritesNet text.now net.ip net.bits) }
    ensures unmapped { IfSome result (λ net. IsUnmapped net.ip) }
{
    match slash_place(text) {
        None => whole(text),
        Some(slash) => {
            let (address, rest) = text.split_at(slash);
            first_bits(address, &rest[1..])
        }
    }
}

// Where the first slash stands.
fn slash_place(text: &[u8]) -> Option<usize>
    ensures value { result ≡ position (λ byte. byte == 47) text.now }
    ensures within { IfSome result (λ place. place < length text.now) }
{
    text.iter().position(|byte| *byte == b'/')
}

// The network of one address.
fn whole(text: &[u8]) -> Option<Net>
    ensures reads { MatchOption result
        ((written : IpAddr) (ip : Ip) (bits : ℕ) → IsIpText text.now written
        → ¬ (FirstBits written (width_as_written written) ip bits))
        (λ net. (written : IpAddr) × IsIpText text.now written
        × FirstBits written (width_as_written written) net.ip net.bits) }
    ensures unmapped { IfSome result (λ net. IsUnmapped net.ip) }
{
    match IpAddr::parse_ascii(text) {
        Ok(written) => network(written, written_width(written)),
        Err(_) => None,
    }
}

// The network of an address and the decimal after its slash.
fn first_bits(address: &[u8], digits: &[u8]) -> Option<Net>
    ensures reads { MatchOption result
        ((written : IpAddr) (prefix : ℕ) (ip : Ip) (bits : ℕ) → IsIpText address.now written
        → IsNumber 10 digits.now prefix → ¬ (FirstBits written prefix ip bits))
        (λ net. (written : IpAddr) × ((prefix : ℕ) × IsIpText address.now written
        × IsNumber 10 digits.now prefix × FirstBits written prefix net.ip net.bits)) }
    ensures unmapped { IfSome result (λ net. IsUnmapped net.ip) }
{
    match IpAddr::parse_ascii(address) {
        Ok(written) => match read_prefix(digits) {
            Some(prefix) => network(written, prefix),
            None => None,
        },
        Err(_) => None,
    }
}

// The network of the first `prefix` bits of an address as it is written, where it has so many and
// they reach the address that it stands for.
fn network(written: IpAddr, prefix: u8) -> Option<Net>
    ensures reads { MatchOption result
        ((ip : Ip) (bits : ℕ) → ¬ (FirstBits written prefix ip bits))
        (λ net. FirstBits written prefix net.ip net.bits) }
    ensures unmapped { IfSome result (λ net. IsUnmapped net.ip) }
{
    if prefix > written_width(written) {
        return None;
    }
    let before = mapped_bits(written);
    if prefix < before {
        return None;
    }
    Some(Net {
        ip: address_of(written),
        bits: prefix - before,
    })
}

// How many bits an address has as it is written.
fn written_width(written: IpAddr) -> u8
    ensures { result ≡ width_as_written written }
{
    match written {
        IpAddr::V4(_) => 32,
        IpAddr::V6(_) => 128,
    }
}

// How many bits stand before the IPv4 address that a mapped one is.
fn mapped_bits(written: IpAddr) -> u8
    ensures { result ≡ bits_before written }
{
    match written {
        IpAddr::V4(_) => 0,
        IpAddr::V6(address) => match address.to_ipv4_mapped() {
            Some(_) => 96,
            None => 0,
        },
    }
}

// The value of a decimal below 256; leading zeros change nothing.
fn read_prefix(digits: &[u8]) -> Option<u8>
    ensures { MatchOption result
        ((value : ℕ) → value < 256 → ¬ (IsNumber 10 digits.now value))
        (IsNumber 10 digits.now) }
{
    let mut value: u32 = 0;
    for byte in digits {
        if !byte.is_ascii_digit() {
            return None;
        }
        value = value * 10 + u32::from(*byte - b'0');
        if value > 255 {
            return None;
        }
    }
    if digits.is_empty() {
        None
    } else {
        Some(value as u8)
    }
}
