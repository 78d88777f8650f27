//! A network, and the addresses in it.
ghost use Rattle.std.specs.Prelude.{◌≡◌, ◌≤◌, ◌↔◌, IsTrue};
ghost use Rattle.ip_net.specs.Width.{width, InNetwork, ShareFirst};

use super::Ip;

/// The addresses of one family that share their first `bits` bits with `ip` (RFC 4632 section 3.1).
/// The bits of `ip` after those do not matter.
#[derive(Clone, Copy, Debug, PartialEq, Eq)]
pub struct Net {
    pub ip: Ip,
    /// At most 32 for IPv4, at most 128 for IPv6.
    pub bits: u8,
    pub ghost within: { bits ≤ width ip },
}

/// Whether the address is in the network: of the same family, with the same first `bits` bits.
pub fn contains(net: &Net, ip: Ip) -> bool
    ensures { IsTrue result ↔ InNetwork net.now.ip net.now.bits ip }
{
    match (net.ip, ip) {
        (Ip::V4(network), Ip::V4(address)) => shares_v4(network, address, net.bits),
        (Ip::V6(network), Ip::V6(address)) => shares_v6(network, address, net.bits),
        _ => false,
    }
}

// Whether two IPv4 addresses share their first `bits` bits.
fn shares_v4(a: u32, b: u32, bits: u8) -> bool
    requires { bits ≤ 32 }
    ensures { IsTrue result ↔ ShareFirst 32 bits a b }
{
    // A shift by the whole width is no shift in Rust.
    bits == 0 || a >> (32 - bits) == b >> (32 - bits)
}

// Whether two IPv6 addresses share their first `bits` bits.
fn shares_v6(a: u128, b: u128, bits: u8) -> bool
    requires { bits ≤ 128 }
    ensures { IsTrue result ↔ ShareFirst 128 bits a b }
{
    bits == 0 || a >> (128 - bits) == b >> (128 - bits)
}
