//! A published configuration, as a connection uses it: its number, its routers and where they lead.
#![tactic(auto)]

mod building;
mod generation;
mod law;
mod nodes;
mod sample;

pub use building::{Built, build_generation};
pub use generation::Generation;
pub use law::targets_lead_to_their_servers;
pub use nodes::{Node, Target};
pub use sample::one_router;
