//! Services.

use px_base::{Bytes, List};

/// A service as it is declared.
#[derive(PartialEq, Eq, Drop)]
pub enum ServiceDef {
    Balancer(BalancerDef),
    Weighted(WeightedDef),
    Mirroring(MirroringDef),
    Failover(FailoverDef),
    /// A kind that is not supported.
    Unsupported,
}

/// `loadBalancer`: servers.
#[derive(PartialEq, Eq, Drop)]
pub struct BalancerDef {
    pub servers: List<ServerDef>,
    pub sticky: Option<Cookie>,
    pub health: Option<Health>,
    /// Whether the client's `Host` goes on to the server.
    pub pass_host: bool,
    pub unsupported: bool,
}

/// A server of a balancer.
#[derive(PartialEq, Eq, Drop)]
pub struct ServerDef {
    /// As written; it may be no URL.
    pub url: Bytes,
    /// Below 2^31.
    pub weight: u32,
}

/// `weighted`: services by weight.
#[derive(PartialEq, Eq, Drop)]
pub struct WeightedDef {
    pub names: List<Bytes>,
    /// One a name, each below 2^31.
    pub weights: List<u32>,
    pub sticky: Option<Cookie>,
}

/// `mirroring`: a service, and others that get copies of its requests.
#[derive(PartialEq, Eq, Drop)]
pub struct MirroringDef {
    pub service: Bytes,
    pub mirrors: List<Bytes>,
    /// One a mirror, each at most 100.
    pub percents: List<u8>,
    /// The most bytes of a body that is copied; -1 means no limit.
    pub max_body: i64,
    pub unsupported: bool,
}

/// `failover`: a service, and another for the time when none of its servers is up.
#[derive(PartialEq, Eq, Drop)]
pub struct FailoverDef {
    pub service: Bytes,
    pub fallback: Bytes,
}

/// `sticky.cookie`: the cookie that keeps a client at its server. Absent texts are empty.
#[derive(PartialEq, Eq, Drop)]
pub struct Cookie {
    /// Empty, or a field name.
    pub name: Bytes,
    pub secure: bool,
    pub http_only: bool,
    /// `none`, `lax` or `strict` without case, or empty.
    pub same_site: Bytes,
    /// In seconds; 0 means that none is set.
    pub max_age: i64,
    pub path: Bytes,
    pub domain: Bytes,
}

/// `healthCheck`: how a server is probed.
#[derive(PartialEq, Eq, Drop)]
pub struct Health {
    /// Begins with `/`.
    pub path: Bytes,
    pub host: Bytes,
    /// 0 means the server's.
    pub port: u16,
    pub method: Bytes,
    /// Names and values of field lines.
    pub headers: List<(Bytes, Bytes)>,
    /// 0 means any of 200 to 399.
    pub status: u16,
    /// In milliseconds, 1 to 86,400,000.
    pub interval: u64,
    /// In milliseconds, 1 to 86,400,000.
    pub timeout: u64,
    pub unsupported: bool,
}
