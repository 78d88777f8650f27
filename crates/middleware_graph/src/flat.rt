//! What chains stand for: their members in their place.
ghost use Rattle.std.specs.Prelude.{◌≡◌, ℕ, ◌+◌, ◌∷◌, [], Some, IfOk};
ghost use Rattle.std.specs.Option.{option_copied};
ghost use Rattle.middleware_graph.specs.Graph.{flat_of as flat_list, joined as joined_list, if_few, max_depth};
ghost use Rattle.middleware_graph.specs.Tables.{IsTable, found_in as found_list};

use crate::node::{Flat, Node};
use px_base::{List, Memory};
use std::alloc::Global;

/// How deep a chain may be, a middleware that is no chain being 1 deep.
const MAX_DEPTH: u32 = 8;

/// For how many middlewares a chain may stand.
const MAX_FLAT: usize = 64;

/// What each middleware stands for: itself, or the members of a chain in its place.
pub fn flatten(alloc: Global, nodes: &[Node]) -> Result<List<Flat>, Memory>
    ensures { IfOk result (IsTable nodes.now max_depth) }
{
    let mut table = List::new(alloc);
    for _depth in 0..MAX_DEPTH {
        let next = deeper(alloc, nodes, table.as_slice())?;
        table = next;
    }
    Ok(table)
}

// The same within one more level, from what it is within fewer.
fn deeper(alloc: Global, nodes: &[Node], table: &[Flat]) -> Result<List<Flat>, Memory>
    ensures { IfOk result (λ next. (depth : ℕ) → IsTable nodes.now depth table.now → IsTable nodes.now (depth + 1) next) }
{
    let mut next = List::new(alloc);
    for (place, node) in nodes.iter().enumerate() {
        next.push(flat_of(alloc, node, place, table)?)?;
    }
    Ok(next)
}

fn flat_of(alloc: Global, node: &Node, place: usize, table: &[Flat]) -> Result<Flat, Memory>
    ensures { IfOk result (λ flat. flat ≡ flat_list (found_list table.now) place (Some node.now)) }
{
    match node {
        Node::Stage => alone(alloc, place),
        Node::Faulty(_) => Ok(None),
        Node::Chain(members) => joined(alloc, members.as_slice(), table),
    }
}

fn alone(alloc: Global, place: usize) -> Result<Flat, Memory>
    ensures { IfOk result (λ flat. flat ≡ Some (place ∷ [])) }
{
    let mut places = List::new(alloc);
    places.push(place)?;
    Ok(Some(places))
}

// What the members stand for, one after another.
fn joined(alloc: Global, members: &[Option<usize>], table: &[Flat]) -> Result<Flat, Memory>
    ensures { IfOk result (λ flat. flat ≡ if_few (joined_list (found_list table.now) members.now)) }
{
    let mut places = Vec::new(alloc);
    for member in members {
        match found_in(table, *member) {
            Some(more) if places.len() + more.len() <= MAX_FLAT => {
                places.extend_from_slice(more)?;
            }
            Some(_) => return Ok(None),
            None => return Ok(None),
        }
    }
    Ok(Some(List::from_vec(places)))
}

// What the table says of a member.
pub(crate) fn found_in(table: &[Flat], member: Option<usize>) -> Option<&[usize]>
    ensures { option_copied result ≡ found_list table.now member }
{
    match member {
        Some(place) => match table.get(place) {
            Some(Some(places)) => Some(places.as_slice()),
            Some(None) => None,
            None => None,
        },
        None => None,
    }
}
