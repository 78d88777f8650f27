//! The dynamic configuration: routers, services and middlewares as typed values.
#![tactic(auto)]

mod config;
mod decoding;
mod equality;
mod fault;
mod found;
mod kinds;
mod law;
mod leaves;
mod lists;
mod merged;
mod middleware;
mod numbers;
mod options;
mod ordered;
mod ranges;
mod readers;
mod references;
mod router;
mod rows;
mod schema;
mod service;
mod tables;
mod walk;

pub use config::Config;
pub use decoding::decode;
pub use equality::equal;
pub use fault::ConfigFault;
pub use field_tree::Style;
pub use law::{list_entries_are_in_order, list_keys_go_by_number, walk_order_is_linear};
pub use merged::{Entry, Merged};
pub use middleware::MiddlewareDef;
pub use references::refer;
pub use router::RouterDef;
pub use service::{
    BalancerDef, Cookie, FailoverDef, Health, MirroringDef, ServerDef, ServiceDef, WeightedDef,
};
