//! The middlewares of a configuration: which can be used, the chains that routers name, and what a chain makes of requests and
//! replies. It knows nothing of routers.
#![tactic(auto)]

mod applying;
mod building;
mod chain;
mod chains;
mod counting;
mod flow;
mod law;
mod lines;
mod linking;
mod naming;
mod part;
mod parts;
mod replying;

pub use applying::apply;
pub use building::build_chains;
pub use chain::Chain;
pub use chains::{Chains, built, states};
pub use counting::{are_usable, flat_len};
pub use flow::Flow;
pub use law::{guarded_paths_stay_guarded, taken_paths_are_words};
pub use lines::middleware_lines;
pub use linking::chain_of;
pub use middleware_graph::{MiddlewareFault, State};
pub use replying::apply_reply;
