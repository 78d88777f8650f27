//! What holds of every graph.
ghost use Rattle.std.specs.Prelude.{◌≡◌, ◌<◌, ℕ, List, Some, All, slice_get};
ghost use Rattle.dyn_config.specs.Joined.{IsQualified};
ghost use Rattle.reference_graph.specs.Numbering.{number_of};
ghost use Rattle.service_faults.specs.References.{ServiceEntry};
ghost use Rattle.service_nodes.specs.declared.graph.Graph.{Graph as GraphOf};
ghost use Rattle.service_nodes.specs.declared.node.Node.{Node as NodeAt};
ghost use Rattle.service_nodes.specs.Nodes.{children_of, node_number};
ghost use Rattle.service_nodes.specs.Graphs.{IsGraph};

/// Whatever a node leads to has a lower number than the node itself. So who goes from a node to one that it leads to, and so on, comes
/// to an end.
pub fn children_have_lower_numbers()
    ensures { (graph : GraphOf) (n : ℕ) (node : NodeAt) → slice_get graph.nodes n ≡ Some node → All (λ child. child < n) (children_of node.kind) }
{}

/// The number that `node_of` gives for the name of a declared service is the service's own.
pub fn names_have_their_numbers()
    ensures { (services : List ServiceEntry) (graph : GraphOf) (is : IsGraph services graph) → IsQualified services → (at : ℕ) (e : ServiceEntry)
        → slice_get services at ≡ Some e → node_number graph.nodes e.name ≡ number_of is.nodes_are.order at }
{}
