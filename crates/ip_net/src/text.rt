//! The text of an address.
ghost use Rattle.std.specs.Prelude.{◌≡◌, ◌≢◌, ◌/◌, ◌^◌, ◌++◌, MatchOption, IfSome, IfOk, OnOk, OnErr};
ghost use Rattle.std.specs.Int.{w128, from_be_bytes};
ghost use Rattle.std.specs.String.{string_bytes};
ghost use Rattle.std.specs.Net.Addr.{ipv4_octets, ipv6_segments, octets_of, IsIpv4Mapped};
ghost use Rattle.std.specs.Net.Text.{ipv4_text, ipv6_text};
ghost use Rattle.ip_net.specs.declared.ip.Ip.{Ip};
ghost use Rattle.ip_net.specs.Texts.{Writes, address_of as address_it_writes, ip_print, IsUnmapped, Fits};

use super::{Ip, Memory};
use std::alloc::Global;
use std::net::{IpAddr, Ipv4Addr, Ipv6Addr};

/// Reads an address: four decimals with dots, or RFC 4291 section 2.2 without a zone. None exactly
/// where the text is neither.
pub fn read_ip(text: &[u8]) -> Option<Ip>
    ensures reads { MatchOption result ((ip : Ip) → ¬ (Writes text.now ip)) (Writes text.now) }
    ensures unmapped { IfSome result IsUnmapped }
{
    match IpAddr::parse_ascii(text) {
        Ok(written) => Some(address_of(written)),
        Err(_) => None,
    }
}

// The address that a written one is.
pub(crate) fn address_of(written: IpAddr) -> Ip
    ensures value { result ≡ address_it_writes written }
    ensures unmapped { IsUnmapped result }
{
    match written {
        IpAddr::V4(address) => Ip::V4(address.to_bits()),
        IpAddr::V6(address) => match address.to_ipv4_mapped() {
            Some(inner) => Ip::V4(inner.to_bits()),
            None => Ip::V6(bits_of(&address.segments())),
        },
    }
}

// The number that eight segments write, the first one highest.
fn bits_of(segments: &[u16; 8]) -> u128
    ensures value { result ≡ from_be_bytes w128 (octets_of segments.now) }
    ensures unmapped { ¬ (IsIpv4Mapped segments.now) → result / 2 ^ 32 ≢ 0xffff }
{
    Ipv6Addr::from_segments(*segments).to_bits()
}

/// Appends an address: dotted decimals, or the text that RFC 5952 recommends. A mapped address that
/// a caller made as `V6` is written as `::ffff:a.b.c.d`, which is read as the IPv4 address.
pub fn print_ip(alloc: Global, ip: Ip, out: &mut Vec<u8>) -> Result<(), Memory>
    ensures printed { OnOk result (out.new.items ≡ out.old.items ++ ip_print ip) }
    ensures unchanged { OnErr result (out.new.items ≡ out.old.items) }
{
    let text = text_of(alloc, ip)?;
    out.extend_from_slice(text.as_bytes())?;
    Ok(())
}

// The text of an address.
fn text_of(alloc: Global, ip: Ip) -> Result<String, Memory>
    ensures { IfOk result (λ text. string_bytes text ≡ ip_print ip) }
{
    match ip {
        Ip::V4(bits) => v4_text(alloc, Ipv4Addr::from_bits(bits)),
        Ip::V6(bits) => v6_text(alloc, Ipv6Addr::from_bits(bits)),
    }
}

fn v4_text(alloc: Global, address: Ipv4Addr) -> Result<String, Memory>
    ensures { IfOk result (λ text. string_bytes text ≡ ipv4_text (ipv4_octets address)) }
{
    format!(in alloc; "{address}")
}

fn v6_text(alloc: Global, address: Ipv6Addr) -> Result<String, Memory>
    ensures { IfOk result (λ text. string_bytes text ≡ ipv6_text (ipv6_segments address)) }
{
    format!(in alloc; "{address}")
}

/// The print of an address is read as that address, but for a mapped one that was made as `V6`.
pub fn prints_are_read()
    ensures { (ip : Ip) → Fits ip → IsUnmapped ip → Writes (ip_print ip) ip }
{}
