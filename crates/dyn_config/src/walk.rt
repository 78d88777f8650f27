//! The walk over a tree: the first fault that it meets.

ghost use Rattle.std.specs.Prelude.{◌≡◌, fold, map, None, IfOk};
ghost use Rattle.std.specs.List.{flat_map};
ghost use Rattle.std.specs.List.Sorted.{IsPermutation};
ghost use Rattle.field_tree.specs.Keys.{walk_cmp};
ghost use Rattle.field_tree.specs.declared.values.Style.TheVariants.{Typed};
ghost use Rattle.dyn_config.specs.Walk.{entries_in, in_entries, sooner, row_stops, names_fault, kinds_fault, first_place, first_of, number_stop, number_cmp, numbered, list};
ghost use Rattle.dyn_config.specs.Shapes.{rows_of, kinds_of, limit_of, declared_check, meaning, entries_fault};
ghost use Rattle.dyn_config.specs.Ordered.{entry_view, AreInOrder};
ghost use Rattle.dyn_config.specs.declared.found.Order.TheVariants.{Number};

use crate::found::{Cause, Fault, Found, Order, here, note, under_key, under_place};
use crate::leaves::{flag_fault, is_empty_table, number_fault, text_fault, time_fault};
use crate::ordered::{EntryRef, has_twin, in_order};
use crate::ranges::is_name;
use crate::rows::{declared_shape, kind_shape, limit};
use crate::schema::{Declared, Family, Shape, Table, TextRange, rows_in};
use crate::tables::{
    are_decimals, check_lines, first_key, is_same, next_under, note_twins, note_unknown,
};
use field_tree::{Fields, Style, Tree};
use px_base::Memory;
use std::alloc::Global;

/// The first fault of a value, by what is asked of it.
#[cycle(check)]
pub(crate) fn check(
    alloc: Global,
    style: Style,
    shape: Shape,
    tree: &Tree,
) -> Result<Option<Fault>, Memory>
    ensures { IfOk result (λ fault. fault ≡ meaning shape style tree.now) }
{
    match shape {
        Shape::Anything => Ok(None),
        Shape::Flag => Ok(flag_fault(alloc, style, tree)),
        Shape::Time => Ok(time_fault(alloc, style, tree)),
        Shape::Text(range) => Ok(text_fault(alloc, range, tree)),
        Shape::Number(range) => Ok(number_fault(alloc, style, range, tree)),
        Shape::Texts => check_list(alloc, style, Shape::Text(TextRange::Whatever), tree),
        Shape::Tables(table) => check_list(alloc, style, Shape::Options(table), tree),
        _ => check_entries(alloc, style, shape, tree),
    }
}

/// The first fault of a value that has to be a table.
#[cycle(check)]
fn check_entries(
    alloc: Global,
    style: Style,
    shape: Shape,
    tree: &Tree,
) -> Result<Option<Fault>, Memory>
    ensures { IfOk result (λ fault. fault ≡ in_entries (entries_fault shape style) (entries_in style tree.now)) }
{
    if is_empty_table(style, tree) {
        let none = Fields::new(alloc);
        return check_fields(alloc, style, shape, &none);
    }
    match tree.table() {
        Some(fields) => check_fields(alloc, style, shape, fields),
        None => Ok(here(alloc, Cause::Kind)),
    }
}

#[cycle(check)]
fn check_fields(
    alloc: Global,
    style: Style,
    shape: Shape,
    fields: &Fields<Tree>,
) -> Result<Option<Fault>, Memory>
    ensures { IfOk result (λ fault. fault ≡ entries_fault shape style fields.now) }
{
    match shape {
        Shape::Lines => check_lines(alloc, fields),
        Shape::Options(table) => {
            let first = check_rows(alloc, style, table, fields)?;
            let first = note_unknown(alloc, first, table, fields)?;
            under_key(alloc, first)
        }
        Shape::Open(table) => {
            let first = check_rows(alloc, style, table, fields)?;
            let first = note_twins(alloc, first, table, fields)?;
            under_key(alloc, first)
        }
        Shape::Names(declared) => check_names(alloc, style, declared, fields),
        Shape::Kinds(family) => check_kinds(alloc, style, family, fields),
        _ => Ok(None),
    }
}

/// The first fault at the options that a table has rows for.
#[cycle(check)]
fn check_rows(
    alloc: Global,
    style: Style,
    table: Table,
    fields: &Fields<Tree>,
) -> Result<Option<Found>, Memory>
    ensures { IfOk result (λ first. first ≡ fold (sooner walk_cmp) None (flat_map (row_stops style fields.now) (rows_of table))) }
{
    let rows = rows_in(table);
    let mut first = None;
    for at in 0..rows.len() {
        let row = rows[at];
        first = check_row(
            alloc,
            style,
            first,
            row.key,
            row.required,
            row.shape,
            fields,
        )?;
    }
    Ok(first)
}

/// The first fault so far, or an earlier one at an option.
#[cycle(check)]
fn check_row(
    alloc: Global,
    style: Style,
    first: Option<Found>,
    key: &[u8],
    required: bool,
    shape: Shape,
    fields: &Fields<Tree>,
) -> Result<Option<Found>, Memory>
    ensures { IfOk result (λ now. now ≡ fold (sooner walk_cmp) first
        (row_stops style fields.now (record { key = key.now; required = required; check = meaning shape }))) }
{
    let Some(at) = next_under(fields, key, 0) else {
        return if required {
            note(alloc, Order::Walk, first, key, here(alloc, Cause::Missing))
        } else {
            Ok(first)
        };
    };
    let fault = check(alloc, style, shape, fields.value(at))?;
    let one = fields.key(at);
    let first = note(alloc, Order::Walk, first, one, fault)?;
    match next_under(fields, key, at + 1) {
        Some(second) => {
            let two = fields.key(second);
            let twice = here(alloc, Cause::Twice);
            note(alloc, Order::Walk, first, two, twice)
        }
        None => Ok(first),
    }
}

/// The first fault of a table of declared names.
#[cycle(check)]
fn check_names(
    alloc: Global,
    style: Style,
    declared: Declared,
    fields: &Fields<Tree>,
) -> Result<Option<Fault>, Memory>
    ensures { IfOk result (λ fault. fault ≡ names_fault (limit_of declared) (declared_check declared) style fields.now) }
{
    if fields.len() > limit(declared) {
        return Ok(here(alloc, Cause::TooMany));
    }
    let mut first = None;
    for at in 0..fields.len() {
        let key = fields.key(at);
        let fault = if is_name(key) {
            check(alloc, style, declared_shape(declared), fields.value(at))?
        } else {
            here(alloc, Cause::BadName)
        };
        first = note(alloc, Order::Walk, first, key, fault)?;
    }
    under_key(alloc, first)
}

/// The first fault of a table of one entry, whose key tells the kind.
#[cycle(check)]
fn check_kinds(
    alloc: Global,
    style: Style,
    family: Family,
    fields: &Fields<Tree>,
) -> Result<Option<Fault>, Memory>
    ensures { IfOk result (λ fault. fault ≡ kinds_fault (kinds_of family) style fields.now) }
{
    if fields.is_empty() {
        return Ok(here(alloc, Cause::Missing));
    }
    let least = first_key(fields);
    let mut first = None;
    for at in 0..fields.len() {
        let key = fields.key(at);
        let fault = if is_same(key, least) {
            check(alloc, style, kind_shape(family, key), fields.value(at))?
        } else {
            here(alloc, Cause::Twice)
        };
        first = note(alloc, Order::Walk, first, key, fault)?;
    }
    under_key(alloc, first)
}

/// The first fault of a list.
#[cycle(check)]
fn check_list(
    alloc: Global,
    style: Style,
    element: Shape,
    tree: &Tree,
) -> Result<Option<Fault>, Memory>
    ensures { IfOk result (λ fault. fault ≡ list (meaning element) style tree.now) }
{
    match style {
        Style::Typed => match tree.list() {
            Some(values) => check_values(alloc, element, values),
            None => Ok(here(alloc, Cause::Kind)),
        },
        Style::Texts => {
            if is_empty_table(style, tree) {
                return Ok(None);
            }
            match tree.table() {
                Some(fields) => check_numbered(alloc, element, fields),
                None => Ok(here(alloc, Cause::Kind)),
            }
        }
    }
}

#[cycle(check)]
fn check_values(alloc: Global, element: Shape, values: &[Tree]) -> Result<Option<Fault>, Memory>
    ensures { IfOk result (λ fault. fault ≡ first_place (meaning element) Typed 0 values.now) }
{
    for (place, value) in values.iter().enumerate() {
        match check(alloc, Style::Typed, element, value)? {
            None => {}
            Some(fault) => return Ok(Some(under_place(alloc, place, &fault)?)),
        }
    }
    Ok(None)
}

/// The first fault of the values that stand under decimals.
#[cycle(check)]
fn check_numbered(
    alloc: Global,
    element: Shape,
    fields: &Fields<Tree>,
) -> Result<Option<Fault>, Memory>
    ensures { IfOk result (λ fault. fault ≡ numbered (meaning element) fields.now) }
{
    if !are_decimals(fields) {
        return Ok(here(alloc, Cause::Kind));
    }
    let ordered = in_order(alloc, Order::Number, fields)?;
    let first = check_numbers(alloc, element, ordered.as_slice(), fields)?;
    under_key(alloc, first)
}

/// The first fault at a decimal, where the entries stand in the order of their numbers too.
#[cycle(check)]
fn check_numbers(
    alloc: Global,
    element: Shape,
    ordered: &[EntryRef<'_>],
    fields: &Fields<Tree>,
) -> Result<Option<Found>, Memory>
    requires all { IsPermutation fields.now (map entry_view ordered.now) }
    requires rise { AreInOrder Number ordered.now }
    ensures { IfOk result (λ first. first ≡ first_of number_cmp (map (number_stop (meaning element) fields.now) fields.now)) }
{
    let mut first = None;
    for at in 0..fields.len() {
        let key = fields.key(at);
        let fault = if has_twin(Order::Number, ordered, key) {
            here(alloc, Cause::Twice)
        } else {
            check(alloc, Style::Texts, element, fields.value(at))?
        };
        first = note(alloc, Order::Number, first, key, fault)?;
    }
    Ok(first)
}
