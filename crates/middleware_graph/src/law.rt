//! What holds of every middleware.
ghost use Rattle.std.specs.Prelude.{◌≡◌, ℕ, List, Some, slice_get};
ghost use Rattle.middleware_graph.specs.Graph.{LeadsTo};
ghost use Rattle.middleware_graph.specs.States.{IsState, IsDisabled};
ghost use Rattle.middleware_graph.specs.declared.fault.MiddlewareFault.{MiddlewareFault};
ghost use Rattle.middleware_graph.specs.declared.node.Node.{Node};
ghost use Rattle.middleware_graph.specs.declared.state.State.TheVariants.{Enabled};

/// No reason stands against a middleware that can be used: all its members are declared and can be used too, and none leads back
/// to it.
pub fn usable_middlewares_are_sound()
    ensures sound { (nodes : List Node) (place count : ℕ) (node : Node) (fault : MiddlewareFault)
        → slice_get nodes place ≡ Some node → IsState nodes place node (Enabled count) → ¬ (IsDisabled nodes place node fault) }
    ensures straight { (nodes : List Node) (place count : ℕ) (node : Node)
        → slice_get nodes place ≡ Some node → IsState nodes place node (Enabled count) → ¬ (LeadsTo nodes place place) }
{}
