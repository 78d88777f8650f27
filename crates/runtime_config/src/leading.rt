//! Where routers lead.
ghost use Rattle.std.specs.Prelude.{◌≡◌, true, Some, is_some, slice_get};
ghost use Rattle.service_nodes.specs.Nodes.{node_number};

use service_nodes::{Graph, Node, node_of};

/// A node with its number.
#[derive(Clone, Copy, Drop)]
pub struct NodeAt<'a> {
    pub number: u32,
    pub node: &'a Node,
}

// The node with this name.
pub(crate) fn node_named<'a>(graph: &'a Graph, name: &[u8]) -> NodeAt<'a>
    requires { is_some (node_number graph.now.nodes name.now) ≡ true }
    ensures number { node_number graph.now.nodes name.now ≡ Some result.number }
    ensures node { slice_get graph.now.nodes result.number ≡ Some result.node.now }
{
    let nodes = graph.nodes.as_slice();
    match node_of(graph, name) {
        Some(number) => NodeAt {
            number,
            node: &nodes[number as usize],
        },
        None => unreachable!(),
    }
}
