//! Routers.

use px_base::{Bytes, List};

/// A router as it is declared. Absent texts are empty.
#[derive(PartialEq, Eq, Drop)]
pub struct RouterDef {
    /// The entry points at which it answers; empty means all.
    pub entry_points: List<Bytes>,
    pub rule: Bytes,
    pub service: Bytes,
    pub middlewares: List<Bytes>,
    pub priority: i64,
    /// Whether it has a table `tls`, whatever is in it.
    pub tls: bool,
    /// Whether an option asks for what is not supported.
    pub unsupported: bool,
}
