//! Whether a chain leads to itself.
ghost use Rattle.std.specs.Prelude.{◌≡◌, ℕ, ◌↔◌, ◌∷◌, [], ◌<◌, Some, IsTrue, IfOk, OnOk, length, slice_get};
ghost use Rattle.middleware_graph.specs.Graph.{LeadsTo, members_of};
ghost use Rattle.middleware_graph.specs.Visits.{IsSeen, Visited};

use crate::node::Node;
use px_base::Memory;
use std::alloc::Global;

// Whether the middleware at this place leads to itself through its members and theirs.
pub(crate) fn leads_to_itself(alloc: Global, nodes: &[Node], place: usize) -> Result<bool, Memory>
    requires { place < length nodes.now }
    ensures { IfOk result (λ yes. IsTrue yes ↔ LeadsTo nodes.now place place) }
{
    let mut seen = vec![in alloc; false; nodes.len()]?;
    search(alloc, nodes, place, seen.as_mut_slice())?;
    Ok(seen[place])
}

// Marks all that a place leads to. Each middleware is looked into once, and the place itself perhaps twice.
fn search(alloc: Global, nodes: &[Node], place: usize, seen: &mut [bool]) -> Result<(), Memory>
    requires size { length seen.old ≡ length nodes.now }
    requires none { (u : ℕ) → ¬ (IsSeen seen.old u) }
    ensures { OnOk result ((u : ℕ) → u < length nodes.now → IsSeen seen.new u ↔ LeadsTo nodes.now place u) }
{
    let mut waiting = Vec::new(alloc);
    waiting.push(place)?;
    while let Some(next) = waiting.pop() {
        visit_all(members_at(nodes, next), seen, &mut waiting)?;
    }
    Ok(())
}

// The members of the chain at a place; none of what is no chain.
fn members_at(nodes: &[Node], place: usize) -> &[Option<usize>]
    ensures { result.now ≡ members_of (slice_get nodes.now place) }
{
    match nodes.get(place) {
        Some(Node::Chain(members)) => members.as_slice(),
        Some(Node::Stage) => &[],
        Some(Node::Faulty(_)) => &[],
        None => &[],
    }
}

fn visit_all(
    members: &[Option<usize>],
    seen: &mut [bool],
    waiting: &mut Vec<usize>,
) -> Result<(), Memory>
    ensures { OnOk result (Visited members.now seen.old waiting.old.items seen.new waiting.new.items) }
{
    for member in members {
        visit(*member, seen, waiting)?;
    }
    Ok(())
}

fn visit(member: Option<usize>, seen: &mut [bool], waiting: &mut Vec<usize>) -> Result<(), Memory>
    ensures { OnOk result (Visited (member ∷ []) seen.old waiting.old.items seen.new waiting.new.items) }
{
    match member {
        Some(place) => visit_place(place, seen, waiting),
        None => Ok(()),
    }
}

fn visit_place(place: usize, seen: &mut [bool], waiting: &mut Vec<usize>) -> Result<(), Memory>
    ensures { OnOk result (Visited (Some place ∷ []) seen.old waiting.old.items seen.new waiting.new.items) }
{
    if place >= seen.len() || seen[place] {
        return Ok(());
    }
    waiting.push(place)?;
    seen[place] = true;
    Ok(())
}
