//! Whether a middleware can be used.
ghost use Rattle.std.specs.Prelude.{◌≡◌, ◌<◌, ◌↔◌, None, IsTrue, IfOk, Any, Contains, length, slice_get, Some};
ghost use Rattle.middleware_graph.specs.Graph.{max_depth};
ghost use Rattle.middleware_graph.specs.Tables.{IsTable, found_in as found_list};
ghost use Rattle.middleware_graph.specs.States.{IsState, AreStates, IsChainState, IsStateOfChain};

use crate::cycle::leads_to_itself;
use crate::fault::MiddlewareFault;
use crate::flat::found_in;
use crate::node::{Flat, Node};
use px_base::{List, Memory};
use std::alloc::Global;

/// Whether a middleware can be used.
#[derive(Clone, Copy, Debug, PartialEq, Eq)]
pub enum State {
    /// It stands for so many middlewares, itself or the members of chains.
    Enabled(u32),
    Disabled(MiddlewareFault),
}

/// The state of each middleware, where `flats` is what `flatten` said of them.
pub fn states_of(alloc: Global, nodes: &[Node], flats: &[Flat]) -> Result<List<State>, Memory>
    requires { IsTable nodes.now max_depth flats.now }
    ensures { IfOk result (AreStates nodes.now) }
{
    let mut states = List::new(alloc);
    for (place, node) in nodes.iter().enumerate() {
        states.push(state_of(alloc, nodes, flats, place, node)?)?;
    }
    Ok(states)
}

fn state_of(
    alloc: Global,
    nodes: &[Node],
    flats: &[Flat],
    place: usize,
    node: &Node,
) -> Result<State, Memory>
    requires flats { IsTable nodes.now max_depth flats.now }
    requires node { slice_get nodes.now place ≡ Some node.now }
    requires within { place < length nodes.now }
    ensures { IfOk result (IsState nodes.now place node.now) }
{
    match node {
        Node::Stage => Ok(State::Enabled(1)),
        Node::Faulty(fault) => Ok(State::Disabled(*fault)),
        Node::Chain(members) => chain_state(alloc, nodes, flats, place, members.as_slice()),
    }
}

// The state of the chain at a place, with these members.
fn chain_state(
    alloc: Global,
    nodes: &[Node],
    flats: &[Flat],
    place: usize,
    members: &[Option<usize>],
) -> Result<State, Memory>
    requires flats { IsTable nodes.now max_depth flats.now }
    requires within { place < length nodes.now }
    ensures { IfOk result (IsChainState nodes.now place members.now) }
{
    match found_in(flats, Some(place)) {
        Some(places) => Ok(State::Enabled(places.len() as u32)),
        None => {
            let fault = fault_of(alloc, nodes, flats, place, members)?;
            Ok(State::Disabled(fault))
        }
    }
}

// Why a chain is disabled, which it is.
fn fault_of(
    alloc: Global,
    nodes: &[Node],
    flats: &[Flat],
    place: usize,
    members: &[Option<usize>],
) -> Result<MiddlewareFault, Memory>
    requires flats { IsTable nodes.now max_depth flats.now }
    requires within { place < length nodes.now }
    requires disabled { found_list flats.now (Some place) ≡ None }
    ensures { IfOk result (IsStateOfChain nodes.now place members.now) }
{
    if lacks_one(members) {
        return Ok(MiddlewareFault::Missing);
    }
    if leads_to_itself(alloc, nodes, place)? {
        return Ok(MiddlewareFault::Cycle);
    }
    if has_disabled(members, flats) {
        return Ok(MiddlewareFault::Child);
    }
    Ok(MiddlewareFault::TooDeep)
}

// Whether one of the members isn't declared.
fn lacks_one(members: &[Option<usize>]) -> bool
    ensures { IsTrue result ↔ Any (λ m. m ≡ None) members.now }
{
    members.iter().any(|member| member.is_none())
}

// Whether one of the members stands for nothing.
fn has_disabled(members: &[Option<usize>], flats: &[Flat]) -> bool
    ensures { IsTrue result ↔ Any (λ m. found_list flats.now m ≡ None) members.now }
{
    members
        .iter()
        .any(|member| found_in(flats, *member).is_none())
}
