//! Addresses of sockets, and the addresses of this project.
ghost use Rattle.std.specs.Prelude.{ℕ, List, [], ◌∷◌, ◌++◌, ◌≡◌};
ghost use Rattle.std.specs.Net.Socket.{socket_ip};
ghost use Rattle.mio_world.specs.Addresses.{IsPeer};

use ip_net::{Ip, read_ip};
use std::net::{IpAddr, Ipv4Addr, Ipv6Addr, Net, SocketAddr, ToSocketAddrs};
use std::str;

/// The address of a peer. A mapped address is the IPv4 address in it.
pub(crate) fn ip_of(from: SocketAddr) -> Ip
    ensures { IsPeer (socket_ip from) result }
{
    match from.ip().to_canonical() {
        IpAddr::V4(ip) => Ip::V4(ip.to_bits()),
        IpAddr::V6(ip) => Ip::V6(ip.to_bits()),
    }
}

pub(crate) fn socket_addr(ip: Ip, port: u16) -> SocketAddr {
    match ip {
        Ip::V4(bits) => SocketAddr::from((Ipv4Addr::from_bits(bits), port)),
        Ip::V6(bits) => SocketAddr::from((Ipv6Addr::from_bits(bits), port)),
    }
}

/// The address of a host as a URL writes it, which is looked up where it is a name. None where there is none.
pub(crate) fn address_of<R: Net>(rt: &R, host: &[u8], port: u16) -> Option<SocketAddr> {
    match read_ip(without_brackets(host)) {
        Some(ip) => Some(socket_addr(ip, port)),
        None => look_up(rt, host, port),
    }
}

/// A host without the brackets in which a URL has an IPv6 address (RFC 3986 section 3.2.2).
fn without_brackets(host: &[u8]) -> &[u8]
    ensures within { (inner : List ℕ) → host.now ≡ 91 ∷ inner ++ 93 ∷ [] → result.now ≡ inner }
{
    match host {
        [b'[', inner @ .., b']'] => inner,
        _ => host,
    }
}

fn look_up<R: Net>(rt: &R, host: &[u8], port: u16) -> Option<SocketAddr> {
    let name = str::from_utf8(host).ok()?;
    (name, port).to_socket_addrs(rt).ok()?.next()
}
