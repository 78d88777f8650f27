//! The first fault that the walk over a tree meets.

ghost use Rattle.std.specs.Prelude.{◌≡◌, ◌++◌, Some, None, IfOk};
ghost use Rattle.dyn_config.specs.Walk.{here, under, key_step, place_step, sooner, at_key, is_less};
ghost use Rattle.dyn_config.specs.Shapes.{order_of};

use crate::numbers::number_order;
use px_base::{Bytes, List, Memory};
use std::alloc::Global;
use std::cmp::Ordering;

/// Why a value is no part of a configuration.
#[derive(Clone, Copy)]
pub(crate) enum Cause {
    Unknown,
    Twice,
    Kind,
    Missing,
    Range,
    BadName,
    TooMany,
}

/// A fault of a value or of something in it.
#[derive(Drop)]
pub(crate) struct Fault {
    pub(crate) cause: Cause,
    /// From the value on.
    pub(crate) path: Bytes,
}

/// The fault at a key of a table.
#[derive(Drop)]
pub(crate) struct Found {
    pub(crate) key: Bytes,
    pub(crate) fault: Fault,
}

/// A fault of the value itself.
pub(crate) fn here(alloc: Global, cause: Cause) -> Option<Fault>
    ensures { result ≡ here cause }
{
    Some(Fault {
        cause,
        path: List::new(alloc),
    })
}

/// A fault of a value of a list as one of the list.
pub(crate) fn under_place(alloc: Global, place: usize, fault: &Fault) -> Result<Fault, Memory>
    ensures { IfOk result (λ whole. Some whole ≡ under (place_step place) (Some fault.now)) }
{
    let path = place_path(alloc, place, fault.path.as_slice())?;
    Ok(Fault {
        cause: fault.cause,
        path,
    })
}

fn place_path(alloc: Global, place: usize, rest: &[u8]) -> Result<Bytes, Memory>
    ensures { IfOk result (λ path. path ≡ place_step place ++ rest.now) }
{
    let mut path = Vec::new(alloc);
    path.extend_from_slice(b"[".as_slice())?;
    px_base::print_decimal(place as u64, &mut path)?;
    path.extend_from_slice(b"]".as_slice())?;
    path.extend_from_slice(rest)?;
    Ok(List::from_vec(path))
}

/// The fault at a key of a table as one of the table.
pub(crate) fn under_key(alloc: Global, first: Option<Found>) -> Result<Option<Fault>, Memory>
    ensures { IfOk result (λ fault. fault ≡ at_key first) }
{
    match first {
        None => Ok(None),
        Some(first) => Ok(Some(joined(alloc, &first)?)),
    }
}

fn joined(alloc: Global, first: &Found) -> Result<Fault, Memory>
    ensures { IfOk result (λ whole. Some whole ≡ under (key_step first.now.key) (Some first.now.fault)) }
{
    let path = key_path(alloc, first.key.as_slice(), first.fault.path.as_slice())?;
    Ok(Fault {
        cause: first.fault.cause,
        path,
    })
}

fn key_path(alloc: Global, key: &[u8], rest: &[u8]) -> Result<Bytes, Memory>
    ensures { IfOk result (λ path. path ≡ key_step key.now ++ rest.now) }
{
    let mut path = Vec::new(alloc);
    path.push(b'.')?;
    path.extend_from_slice(key)?;
    path.extend_from_slice(rest)?;
    Ok(List::from_vec(path))
}

/// The order in which the keys of a table are visited.
#[derive(Clone, Copy)]
pub(crate) enum Order {
    Walk,
    /// By the numbers that the keys are.
    Number,
}

/// Of the first fault so far and the one at a key, if any, the one that the walk meets first.
pub(crate) fn note(
    alloc: Global,
    order: Order,
    first: Option<Found>,
    key: &[u8],
    fault: Option<Fault>,
) -> Result<Option<Found>, Memory>
    ensures { IfOk result (λ now. now ≡ sooner (order_of order) first (key.now, fault)) }
{
    match fault {
        None => Ok(first),
        Some(fault) => note_fault(alloc, order, first, key, fault),
    }
}

fn note_fault(
    alloc: Global,
    order: Order,
    first: Option<Found>,
    key: &[u8],
    fault: Fault,
) -> Result<Option<Found>, Memory>
    ensures { IfOk result (λ now. now ≡ sooner (order_of order) first (key.now, Some fault)) }
{
    match first {
        None => found_at(alloc, key, fault),
        Some(first) => {
            if is_before(order, key, first.key.as_slice()) {
                found_at(alloc, key, fault)
            } else {
                Ok(Some(first))
            }
        }
    }
}

fn found_at(alloc: Global, key: &[u8], fault: Fault) -> Result<Option<Found>, Memory>
    ensures { IfOk result (λ now. now ≡ Some (record { key = key.now; fault = fault })) }
{
    let key = Bytes::from_slice(alloc, key)?;
    Ok(Some(Found { key, fault }))
}

/// Whether a key is visited before another.
pub(crate) fn is_before(order: Order, key: &[u8], other: &[u8]) -> bool
    ensures { result ≡ is_less (order_of order key.now other.now) }
{
    match visit_order(order, key, other) {
        Ordering::Less => true,
        Ordering::Equal => false,
        Ordering::Greater => false,
    }
}

/// The order of two keys.
pub(crate) fn visit_order(order: Order, key: &[u8], other: &[u8]) -> Ordering
    ensures { result ≡ order_of order key.now other.now }
{
    match order {
        Order::Walk => field_tree::walk_order(key, other),
        Order::Number => number_order(key, other),
    }
}
