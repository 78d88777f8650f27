//! What the words of `serve` ask for.
use ip_net::Ip;
use px_base::{Bytes, List};

/// What to serve.
#[derive(Debug, Drop)]
pub struct ServePlan {
    pub listens: List<Listen>,
    pub poll: PollPlan,
    /// The workers, 1 to 16.
    pub workers: u32,
    /// After so many noted requests a worker's world asks for a stop.
    pub requests: Option<u64>,
    /// The beginning of the names of the access files.
    pub access: Option<Bytes>,
}

/// Where clients come.
#[derive(Debug, Drop)]
pub struct Listen {
    /// The name of the entry point.
    pub entry: Bytes,
    pub ip: Ip,
    pub port: u16,
}

/// Where configurations come from.
#[derive(Debug, Drop)]
pub struct PollPlan {
    /// The path of the configuration file.
    pub file: Option<Bytes>,
    pub consul: Option<ConsulAt>,
    /// The time between the beginnings of two rounds, in milliseconds.
    pub period: u64,
}

/// Where Consul is, and the root of its keys.
#[derive(Debug, Drop)]
pub struct ConsulAt {
    pub host: Bytes,
    pub port: u16,
    pub root: Bytes,
}
