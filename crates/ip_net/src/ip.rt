//! An address of either family.

/// An address as the number that its octets write, the first octet highest. An IPv4-mapped IPv6
/// address (RFC 4291 section 2.5.5.2) is the IPv4 address in it, so no reader gives it as `V6`.
#[derive(Clone, Copy, Debug, PartialEq, Eq)]
pub enum Ip {
    V4(u32),
    V6(u128),
}
