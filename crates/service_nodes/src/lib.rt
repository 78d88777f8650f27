//! The sound services of a configuration as the nodes of a graph, by number.
#![tactic(auto)]

mod building;
mod children;
mod graph;
mod kinds;
mod law;
mod naming;
mod node;
mod servers;

pub use building::build_graph;
pub use graph::Graph;
pub use law::{children_have_lower_numbers, names_have_their_numbers};
pub use naming::node_of;
pub use node::{Node, NodeKind};
