//! The services of a configuration as a graph.
ghost use Rattle.std.specs.Prelude.{◌≡◌, ◌<◌, ◌^◌, ℕ, true, Some, length, slice_get};
ghost use Rattle.service_nodes.specs.declared.node.Node.{Node as NodeAt};
ghost use Rattle.service_nodes.specs.Lawful.{is_lawful};

use crate::node::Node;
use px_base::{Bytes, List};
use service_faults::ServiceFault;

/// The services of a configuration: the sound ones as nodes, and the faults of the others. A node's children have lower numbers than
/// the node itself, and what a node says is within the limits of its kind.
#[derive(Drop)]
pub struct Graph {
    /// The nodes in the order of their numbers.
    pub nodes: List<Node>,
    /// The disabled services by name, each with the first reason against it.
    pub faults: List<(Bytes, ServiceFault)>,
    pub ghost few: { length nodes < 2 ^ 32 },
    pub ghost lawful: { (n : ℕ) (node : NodeAt) → slice_get nodes n ≡ Some node → is_lawful n node ≡ true },
}
