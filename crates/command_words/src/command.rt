//! What the words of a call ask for.
use ip_net::Ip;
use link_world::ServePlan;
use px_base::Bytes;

/// A command, with what its words say.
#[derive(Debug, Drop)]
pub enum Command {
    /// Tells where a request head would go.
    Route(RoutePlan),
    /// Tells how a configuration would be served.
    Check(CheckPlan),
    /// Runs a script of events.
    Replay,
    /// Serves clients.
    Serve(ServePlan),
}

/// What the words of `route` say.
#[derive(Debug, Drop)]
pub struct RoutePlan {
    /// The path of the configuration file.
    pub config: Bytes,
    /// The name of the entry point at which the request comes.
    pub entry: Bytes,
    /// The address that the request comes from.
    pub peer: Ip,
}

/// What the words of `check` say.
#[derive(Debug, Drop)]
pub struct CheckPlan {
    /// The path of the configuration file.
    pub config: Bytes,
}

/// Why words give no command.
#[derive(Clone, Copy, Debug, PartialEq, Eq)]
pub enum WordFault {
    /// They are the words of none.
    NotACommand,
    Memory,
}
