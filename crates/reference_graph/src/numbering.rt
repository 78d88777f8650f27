//! The numbers of sound objects.
ghost use Rattle.std.specs.Prelude.{◌≡◌, ◌<◌, ◌+◌, ◌≤◌, ℕ, List as ListOf, true, false, length, IfOk, OnOk};
ghost use Rattle.reference_graph.specs.Links.{AreWithin};
ghost use Rattle.reference_graph.specs.Heights.{is_sound};
ghost use Rattle.reference_graph.specs.Numbering.{AreLayered, AreOfSound, IsNumbering, IsNumberedBelow, AreNumbers, GoesDown, first_without, has_number};

use crate::height::Height;
use crate::links::places_at;
use px_base::{List, Memory};
use std::alloc::Global;

/// The sound objects by number, and their numbers.
#[derive(Debug, Drop)]
pub struct Numbering {
    /// The places of the sound objects, in the order of their numbers.
    pub order: Vec<usize>,
    /// For each object its number, where it is sound.
    pub numbers: Vec<Option<usize>>,
}

/// Numbers the sound objects from 0, each after those that it refers to.
pub fn number_all(
    alloc: Global,
    links: &[List<Option<usize>>],
    heights: &[Option<Height>],
) -> Result<Numbering, Memory>
    requires within { AreWithin links.now }
    requires long { length heights.now ≡ length links.now }
    requires layered { AreLayered links.now heights.now }
    ensures order { IfOk result (λ n. IsNumbering links.now (is_sound heights.now) n.order.items) }
    ensures numbers { IfOk result (λ n. AreNumbers n.order.items n.numbers.items) }
    ensures long { IfOk result (λ n. length n.numbers.items ≡ length links.now) }
    ensures sound { IfOk result (λ n. AreOfSound (is_sound heights.now) n.numbers.items) }
    ensures few { IfOk result (λ n. length n.order.items ≤ length links.now) }
{
    let mut order = Vec::new(alloc);
    let mut numbers = vec![in alloc; None; links.len()]?;
    for first in 0..links.len() {
        if heights[first].is_some() {
            number_below(links, heights, first, &mut order, &mut numbers)?;
        }
    }
    Ok(Numbering { order, numbers })
}

// Numbers an object, and before it what is below it.
fn number_below(
    links: &[List<Option<usize>>],
    heights: &[Option<Height>],
    first: usize,
    order: &mut Vec<usize>,
    numbers: &mut Vec<Option<usize>>,
) -> Result<(), Memory>
    requires within { AreWithin links.now }
    requires long { length heights.now ≡ length links.now }
    requires layered { AreLayered links.now heights.now }
    requires inside { first < length links.now }
    requires sound { is_sound heights.now first ≡ true }
    requires before { IsNumberedBelow links.now (is_sound heights.now) first order.old.items numbers.old.items }
    ensures { OnOk result (IsNumberedBelow links.now (is_sound heights.now) (first + 1) order.new.items numbers.new.items) }
{
    while numbers[first].is_none() {
        let at = next_below(links, heights, first, numbers.as_slice());
        numbers[at] = Some(order.len());
        order.push(at)?;
    }
    Ok(())
}

// The object that gets the next number, where the first without one is this.
fn next_below(
    links: &[List<Option<usize>>],
    heights: &[Option<Height>],
    first: usize,
    numbers: &[Option<usize>],
) -> usize
    requires within { AreWithin links.now }
    requires long { length heights.now ≡ length links.now }
    requires layered { AreLayered links.now heights.now }
    requires inside { first < length links.now }
    requires sound { is_sound heights.now first ≡ true }
    requires has_none { has_number numbers.now first ≡ false }
    ensures inside { result < length links.now }
    ensures sound { is_sound heights.now result ≡ true }
    ensures has_none { has_number numbers.now result ≡ false }
    ensures down { (between : ListOf ℕ) × GoesDown links.now (has_number numbers.now) first between result }
{
    let mut at = first;
    while let Some(next) = first_new(places_at(links, at), numbers) {
        at = next;
    }
    at
}

// The first object without a number that references lead to.
fn first_new(places: &[Option<usize>], numbers: &[Option<usize>]) -> Option<usize>
    ensures { result ≡ first_without (has_number numbers.now) places.now }
{
    for place in places {
        if let Some(at) = *place {
            if !has_its_number(numbers, at) {
                return Some(at);
            }
        }
    }
    None
}

fn has_its_number(numbers: &[Option<usize>], at: usize) -> bool
    ensures { result ≡ has_number numbers.now at }
{
    match numbers.get(at) {
        Some(number) => number.is_some(),
        None => false,
    }
}
