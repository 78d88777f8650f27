//! Which node has a name.
ghost use Rattle.std.specs.Prelude.{◌≡◌, ◌<◌, IfSome, length};
ghost use Rattle.service_nodes.specs.Nodes.{node_number};

use crate::graph::Graph;
use crate::node::Node;

/// The number of the node with this qualified name. None where no sound service has it.
pub fn node_of(graph: &Graph, name: &[u8]) -> Option<u32>
    ensures { result ≡ node_number graph.now.nodes name.now }
{
    match node_named(graph.nodes.as_slice(), name) {
        Some(number) => Some(number as u32),
        None => None,
    }
}

fn node_named(nodes: &[Node], name: &[u8]) -> Option<usize>
    ensures value { result ≡ node_number nodes.now name.now }
    ensures within { IfSome result (λ number. number < length nodes.now) }
{
    for (number, node) in nodes.iter().enumerate() {
        if node.name.as_slice() == name {
            return Some(number);
        }
    }
    None
}
