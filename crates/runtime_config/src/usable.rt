//! What of a configuration can be used, as its routers are judged by it.
ghost use Rattle.std.specs.Prelude.{◌≡◌, ◌++◌, [], map, IfOk, OnOk};
ghost use Rattle.runtime_config.specs.Usable.{name_of, usable_of, with_usable};

use middleware_chain::State;
use px_base::{Bytes, List, Memory};
use service_nodes::Node;
use std::alloc::Global;

// The names of the nodes.
pub(crate) fn names_of(alloc: Global, nodes: &[Node]) -> Result<List<Bytes>, Memory>
    ensures { IfOk result (λ names. names ≡ map name_of nodes.now) }
{
    let mut names = List::new(alloc);
    for node in nodes {
        names.push(Bytes::from_slice(alloc, node.name.as_slice())?)?;
    }
    Ok(names)
}

// The middlewares that can be used, each with the number of those for which it stands.
pub(crate) fn usable_middlewares(
    alloc: Global,
    middlewares: &[(Bytes, State)],
) -> Result<List<(Bytes, u32)>, Memory>
    ensures { IfOk result (λ usable. usable ≡ usable_of middlewares.now) }
{
    let mut usable = List::new(alloc);
    for middleware in middlewares {
        add_usable(alloc, middleware, &mut usable)?;
    }
    Ok(usable)
}

fn add_usable(
    alloc: Global,
    middleware: &(Bytes, State),
    usable: &mut List<(Bytes, u32)>,
) -> Result<(), Memory>
    ensures { OnOk result (usable.new ≡ usable.old ++ with_usable middleware.now.0 middleware.now.1 []) }
{
    match middleware.1 {
        State::Enabled(count) => {
            let name = Bytes::from_slice(alloc, middleware.0.as_slice())?;
            usable.push((name, count))
        }
        State::Disabled(_) => Ok(()),
    }
}
