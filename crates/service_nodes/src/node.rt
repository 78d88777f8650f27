//! A node: a service that requests can be sent to.

use dyn_config::{Cookie, Health};
use px_base::{Bytes, List, Server};

/// A sound service. It leads to others by their numbers.
#[derive(Drop)]
pub struct Node {
    /// The service's qualified name.
    pub name: Bytes,
    pub kind: NodeKind,
}

/// What a node does with a request.
#[derive(Drop)]
pub enum NodeKind {
    /// Sends it to one of its servers.
    Balancer {
        servers: List<Server>,
        sticky: Option<Cookie>,
        /// Whether the client's `Host` goes on to the server.
        pass_host: bool,
        health: Option<Health>,
    },
    /// Hands it to one of its children by their weights.
    Weighted {
        children: List<u32>,
        /// One a child.
        weights: List<u32>,
        sticky: Option<Cookie>,
    },
    /// Hands it to its main node, and copies of some to its mirrors.
    Mirroring {
        main: u32,
        mirrors: List<u32>,
        /// One a mirror, each at most 100.
        percents: List<u8>,
        /// The most bytes of a body that is copied; -1 means no limit.
        max_body: i64,
    },
    /// Hands it to its main node, or to the fallback while no server of the main one is up.
    Failover {
        main: u32,
        fallback: u32,
    },
}
