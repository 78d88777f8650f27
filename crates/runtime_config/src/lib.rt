//! A configuration as it runs: which of its routers, services and middlewares can be used, which router a request gets, what that
//! router's middlewares make of messages, and where it leads.
#![tactic(auto)]

mod building;
mod config;
mod law;
mod leading;
mod linking;
mod usable;

pub use building::build_runtime;
pub use config::RuntimeConfig;
pub use law::enabled_routers_run;
pub use leading::NodeAt;
