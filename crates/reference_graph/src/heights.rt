//! Which objects are sound.
ghost use Rattle.std.specs.Prelude.{◌≡◌, ◌+◌, ◌-◌, ◌^◌, ◌<◌, ◌≤◌, ◌||◌, ℕ, true, false, None, min, max, length, IfOk, MatchOption};
ghost use Rattle.std.specs.Bool.{OnTrue, OnFalse};
ghost use Rattle.reference_graph.specs.Links.{links_at};
ghost use Rattle.reference_graph.specs.Heights.{AreHeights, AreTall, IsJudged, IsBeside, are_sound, is_blocked, height_at as height_found, height_behind, unsettled};

use crate::height::Height;
use crate::links::places_at;
use px_base::{List, Memory};
use std::alloc::Global;

/// The most objects that may stand one below another.
const MAX_DEPTH: u32 = 8;

/// The most objects of a tree, each counted as often as it stands there.
const MAX_SIZE: u32 = 64;

/// The heights of the sound objects: of those that aren't blocked, refer to sound ones alone, and whose trees are at most 8 deep and
/// have at most 64 objects.
pub fn heights_of(
    alloc: Global,
    links: &[List<Option<usize>>],
    blocked: &[bool],
) -> Result<Vec<Option<Height>>, Memory>
    requires { length blocked.now ≡ length links.now }
    ensures long { IfOk result (λ heights. length heights.items ≡ length links.now) }
    ensures heights { IfOk result (λ heights. AreHeights links.now blocked.now heights.items) }
    ensures judged { IfOk result (λ heights. (at : ℕ) → at < length links.now → IsJudged links.now blocked.now heights.items at) }
{
    let mut heights = vec![in alloc; None; links.len()]?;
    while settle(links, blocked, &mut heights) {}
    Ok(heights)
}

// Finds further sound objects, one after another. Answers whether there was one.
fn settle(
    links: &[List<Option<usize>>],
    blocked: &[bool],
    heights: &mut Vec<Option<Height>>,
) -> bool
    requires blocked { length blocked.now ≡ length links.now }
    requires long { length heights.old.items ≡ length links.now }
    requires heights { AreHeights links.now blocked.now heights.old.items }
    ensures long { length heights.new.items ≡ length links.now }
    ensures heights { AreHeights links.now blocked.now heights.new.items }
    ensures fewer { OnTrue result (unsettled heights.new.items < unsettled heights.old.items) }
    ensures judged { OnFalse result ((at : ℕ) → at < length links.now → IsJudged links.now blocked.now heights.new.items at) }
{
    let mut found = false;
    for at in 0..links.len() {
        let here = settle_one(links, blocked, heights, at);
        found = either(found, here);
    }
    found
}

fn either(a: bool, b: bool) -> bool
    ensures { result ≡ (a || b) }
{
    a || b
}

fn settle_one(
    links: &[List<Option<usize>>],
    blocked: &[bool],
    heights: &mut Vec<Option<Height>>,
    at: usize,
) -> bool
    requires blocked { length blocked.now ≡ length links.now }
    requires long { length heights.old.items ≡ length links.now }
    requires inside { at < length links.now }
    requires heights { AreHeights links.now blocked.now heights.old.items }
    ensures long { length heights.new.items ≡ length links.now }
    ensures heights { AreHeights links.now blocked.now heights.new.items }
    ensures fewer { OnTrue result (unsettled heights.new.items < unsettled heights.old.items) }
    ensures same { OnFalse result (heights.new.items ≡ heights.old.items) }
    ensures judged { OnFalse result (IsJudged links.now blocked.now heights.new.items at) }
{
    if blocked[at] || heights[at].is_some() {
        return false;
    }
    match height_below(links, at, heights.as_slice()) {
        Some(below) => settle_above(links, blocked, heights, at, below),
        None => false,
    }
}

// The object is sound where the trees below it leave room for it.
fn settle_above(
    links: &[List<Option<usize>>],
    blocked: &[bool],
    heights: &mut Vec<Option<Height>>,
    at: usize,
    below: Height,
) -> bool
    requires blocked { length blocked.now ≡ length links.now }
    requires long { length heights.old.items ≡ length links.now }
    requires inside { at < length links.now }
    requires heights { AreHeights links.now blocked.now heights.old.items }
    requires free { is_blocked blocked.now at ≡ false }
    requires fresh { height_found heights.old.items at ≡ None }
    requires below { IsBeside links.now heights.old.items (links_at links.now at) below }
    ensures long { length heights.new.items ≡ length links.now }
    ensures heights { AreHeights links.now blocked.now heights.new.items }
    ensures fewer { OnTrue result (unsettled heights.new.items < unsettled heights.old.items) }
    ensures same { OnFalse result (heights.new.items ≡ heights.old.items) }
    ensures judged { OnFalse result (IsJudged links.now blocked.now heights.new.items at) }
{
    if below.depth >= MAX_DEPTH || below.size >= MAX_SIZE {
        return false;
    }
    heights[at] = Some(Height {
        depth: below.depth + 1,
        size: below.size + 1,
    });
    true
}

// How high the trees are that stand below an object. None where one of its references leads to no sound object.
fn height_below(
    links: &[List<Option<usize>>],
    at: usize,
    heights: &[Option<Height>],
) -> Option<Height>
    requires inside { at < length links.now }
    requires tall { AreTall links.now heights.now }
    ensures { MatchOption result
        (are_sound heights.now (links_at links.now at) ≡ false)
        (λ h. IsBeside links.now heights.now (links_at links.now at) h) }
{
    let mut beside = Height { depth: 0, size: 0 };
    for place in places_at(links, at) {
        match height_at(*place, heights) {
            Some(height) => beside = join(beside, height),
            None => return None,
        }
    }
    Some(beside)
}

// The height of the object that a reference leads to, where that is sound.
fn height_at(place: Option<usize>, heights: &[Option<Height>]) -> Option<Height>
    ensures { result ≡ height_behind heights.now place }
{
    match place {
        Some(at) => match heights.get(at) {
            Some(height) => *height,
            None => None,
        },
        None => None,
    }
}

// How high trees are that stand beside one another. A size stays at 2^32 - 1 once it is there.
fn join(a: Height, b: Height) -> Height
    ensures depth { result.depth ≡ max a.depth b.depth }
    ensures size { result.size ≡ min (a.size + b.size) (2 ^ 32 - 1) }
{
    Height {
        depth: a.depth.max(b.depth),
        size: a.size.saturating_add(b.size),
    }
}
