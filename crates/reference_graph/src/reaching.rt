//! whether an object reaches itself by references.
ghost use Rattle.std.specs.Prelude.{◌≡◌, ◌<◌, ◌∷◌, ◌↔◌, [], ℕ, true, Some, IsTrue, IfOk, OnOk, length};
ghost use Rattle.reference_graph.specs.Links.{AreWithin, is_among};
ghost use Rattle.reference_graph.specs.Reaching.{Reaches};
ghost use Rattle.reference_graph.specs.Search.{IsMarked, was_seen};

use crate::links::places_at;
use px_base::{List, Memory};
use std::alloc::Global;

/// Whether references lead from the object back to itself.
pub fn reaches_itself(
    alloc: Global,
    links: &[List<Option<usize>>],
    from: usize,
) -> Result<bool, Memory>
    requires within { AreWithin links.now }
    requires inside { from < length links.now }
    ensures { IfOk result (λ yes. IsTrue yes ↔ Reaches links.now from from) }
{
    let seen = seen_from(alloc, links, from)?;
    Ok(seen[from])
}

// Which objects the object reaches.
fn seen_from(alloc: Global, links: &[List<Option<usize>>], from: usize) -> Result<Vec<bool>, Memory>
    requires within { AreWithin links.now }
    requires inside { from < length links.now }
    ensures long { IfOk result (λ seen. length seen.items ≡ length links.now) }
    ensures found { IfOk result (λ seen. (to : ℕ) → was_seen seen.items to ≡ true → Reaches links.now from to) }
    ensures all { IfOk result (λ seen. (to : ℕ) → Reaches links.now from to → was_seen seen.items to ≡ true) }
{
    let mut seen = vec![in alloc; false; links.len()]?;
    let mut todo = Vec::new(alloc);
    todo.push(from)?;
    while let Some(at) = todo.pop() {
        mark_all(places_at(links, at), &mut seen, &mut todo)?;
    }
    Ok(seen)
}

fn mark_all(
    places: &[Option<usize>],
    seen: &mut Vec<bool>,
    todo: &mut Vec<usize>,
) -> Result<(), Memory>
    requires { (to : ℕ) → is_among to places.now ≡ true → to < length seen.old.items }
    ensures { OnOk result (IsMarked places.now seen.old.items todo.old.items seen.new.items todo.new.items) }
{
    for place in places {
        if let Some(at) = *place {
            mark(at, seen, todo)?;
        }
    }
    Ok(())
}

fn mark(at: usize, seen: &mut Vec<bool>, todo: &mut Vec<usize>) -> Result<(), Memory>
    requires { at < length seen.old.items }
    ensures { OnOk result (IsMarked (Some at ∷ []) seen.old.items todo.old.items seen.new.items todo.new.items) }
{
    if !seen[at] {
        todo.push(at)?;
        seen[at] = true;
    }
    Ok(())
}
