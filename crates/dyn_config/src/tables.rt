//! Tables, key by key.

ghost use Rattle.std.specs.Prelude.{◌≡◌, ◌≢◌, [], map, fold, drop, None, IfOk, MatchOption, bytes_eq, not, ◌&&◌, if◌then◌else◌};
ghost use Rattle.std.specs.List.{list_all};
ghost use Rattle.field_tree.specs.Keys.{walk_cmp};
ghost use Rattle.dyn_config.specs.Walk.{here, sooner, under_key, is_known, unknown_fault, unknown_stop, other_stop, lesser_key, lines_fault, line_fault, is_decimal, least_key};
ghost use Rattle.dyn_config.specs.declared.found.Cause.TheVariants.{Twice};
ghost use Rattle.dyn_config.specs.Shapes.{rows_of};
ghost use Rattle.dyn_config.specs.Steps.{NextUnder};

use crate::found::{Cause, Fault, Found, Order, here, is_before, note, under_key};
use crate::leaves::line_fault;
use crate::numbers::is_decimal;
use crate::ordered::{has_twin, in_order};
use crate::rows::is_known;
use crate::schema::Table;
use field_tree::{Fields, Tree};
use px_base::{Memory, fold_equal};
use std::alloc::Global;

/// The first place from `from` on at which a key stands, without case.
pub(crate) fn next_under(fields: &Fields<Tree>, key: &[u8], from: usize) -> Option<usize>
    ensures { MatchOption result (under_key key.now (drop from fields.now) ≡ []) (λ at. NextUnder key.now fields.now from at) }
{
    for at in from..fields.len() {
        if fold_equal(key, fields.key(at)) {
            return Some(at);
        }
    }
    None
}

/// The first fault so far, or an earlier one at a key that is no option of the table.
pub(crate) fn note_unknown(
    alloc: Global,
    mut first: Option<Found>,
    table: Table,
    fields: &Fields<Tree>,
) -> Result<Option<Found>, Memory>
    ensures { IfOk result (λ now. now ≡ fold (sooner walk_cmp) first (map (unknown_stop (rows_of table)) fields.now)) }
{
    for at in 0..fields.len() {
        let key = fields.key(at);
        first = note(
            alloc,
            Order::Walk,
            first,
            key,
            unknown_fault(alloc, table, key),
        )?;
    }
    Ok(first)
}

fn unknown_fault(alloc: Global, table: Table, key: &[u8]) -> Option<Fault>
    ensures { result ≡ unknown_fault (rows_of table) key.now }
{
    if is_known(table, key) {
        None
    } else {
        here(alloc, Cause::Unknown)
    }
}

/// The first fault so far, or an earlier one at a second key of one name that is no option of the table.
pub(crate) fn note_twins(
    alloc: Global,
    mut first: Option<Found>,
    table: Table,
    fields: &Fields<Tree>,
) -> Result<Option<Found>, Memory>
    ensures { IfOk result (λ now. now ≡ fold (sooner walk_cmp) first (map (other_stop (rows_of table) fields.now) fields.now)) }
{
    let ordered = in_order(alloc, Order::Walk, fields)?;
    for at in 0..fields.len() {
        let key = fields.key(at);
        let twice = has_twin(Order::Walk, ordered.as_slice(), key);
        let fault = other_fault(alloc, table, key, twice);
        first = note(alloc, Order::Walk, first, key, fault)?;
    }
    Ok(first)
}

fn other_fault(alloc: Global, table: Table, key: &[u8], twice: bool) -> Option<Fault>
    ensures { result ≡ (if not (is_known (rows_of table) key.now) && twice then here Twice else None) }
{
    if !is_known(table, key) && twice {
        here(alloc, Cause::Twice)
    } else {
        None
    }
}

/// The first fault of names and values of field lines.
pub(crate) fn check_lines(alloc: Global, fields: &Fields<Tree>) -> Result<Option<Fault>, Memory>
    ensures { IfOk result (λ fault. fault ≡ lines_fault fields.now) }
{
    let ordered = in_order(alloc, Order::Walk, fields)?;
    let mut first = None;
    for at in 0..fields.len() {
        let key = fields.key(at);
        let twice = has_twin(Order::Walk, ordered.as_slice(), key);
        let fault = name_fault(alloc, twice, key, fields.value(at));
        first = note(alloc, Order::Walk, first, key, fault)?;
    }
    under_key(alloc, first)
}

fn name_fault(alloc: Global, twice: bool, name: &[u8], value: &Tree) -> Option<Fault>
    ensures { result ≡ (if twice then here Twice else line_fault (name.now, value.now)) }
{
    if twice {
        here(alloc, Cause::Twice)
    } else {
        line_fault(alloc, name, value)
    }
}

/// The key that the walk visits first; empty where there is none.
pub(crate) fn first_key(fields: &Fields<Tree>) -> &[u8]
    ensures { result.now ≡ least_key fields.now }
{
    if fields.is_empty() {
        return b"".as_slice();
    }
    let mut least = 0;
    for at in 1..fields.len() {
        if is_before(Order::Walk, fields.key(at), fields.key(least)) {
            least = at;
        }
    }
    fields.key(least)
}

/// Whether all keys are decimals.
pub(crate) fn are_decimals(fields: &Fields<Tree>) -> bool
    ensures { result ≡ list_all (λ entry. is_decimal entry.0) fields.now }
{
    for at in 0..fields.len() {
        if !is_decimal(fields.key(at)) {
            return false;
        }
    }
    true
}

pub(crate) fn is_same(a: &[u8], b: &[u8]) -> bool
    ensures { result ≡ bytes_eq a.now b.now }
{
    a == b
}
