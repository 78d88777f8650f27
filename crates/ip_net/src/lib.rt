//! Internet addresses and networks: their texts (RFC 4291, RFC 5952, RFC 4632) and whether a
//! network contains an address. It knows nothing of sockets or of the configuration.
#![tactic(auto)]

mod ip;
mod net;
mod prefix;
#[cfg(test)]
mod tests;
mod text;

pub use ip::Ip;
pub use net::{Net, contains};
pub use prefix::read_net;
pub use text::{print_ip, prints_are_read, read_ip};

/// Memory ran out.
pub type Memory = std::alloc::AllocError;
