//! Values that have no values in them.

ghost use Rattle.std.specs.Prelude.{◌≡◌, IsTrue, Some, slice_get};
ghost use Rattle.std.specs.Map.{keys_of, values_of};
ghost use Rattle.field_tree.specs.Values.{text_of, number_in, flag_in};
ghost use Rattle.field_tree.specs.Times.{time_in};
ghost use Rattle.dyn_config.specs.Values.{is_field_value};
ghost use Rattle.dyn_config.specs.Walk.{fault_in, fault_unless, is_empty_in, line_fault};
ghost use Rattle.dyn_config.specs.Schema.{text_if, number_if, flag, time};
ghost use Rattle.dyn_config.specs.Shapes.{is_text_of, is_number_of};

use crate::found::{Cause, Fault, here};
use crate::ranges::{is_field_name, is_field_value, is_number_in, is_text_in};
use crate::schema::{NumberRange, TextRange};
use field_tree::{Style, Tree, ValueFault};
use std::alloc::Global;

/// Whether a value stands for a table without entries.
pub(crate) fn is_empty_table(style: Style, tree: &Tree) -> bool
    ensures { result ≡ is_empty_in style tree.now }
{
    match style {
        Style::Typed => false,
        Style::Texts => tree.stands_for_empty(),
    }
}

pub(crate) fn text_fault(alloc: Global, range: TextRange, tree: &Tree) -> Option<Fault>
    ensures { result ≡ fault_in (is_text_of range) (text_of tree.now) }
{
    match tree.text() {
        Ok(text) => unless(alloc, is_text_in(range, text)),
        Err(ValueFault::Kind) => here(alloc, Cause::Kind),
        Err(ValueFault::Range) => here(alloc, Cause::Range),
    }
}

pub(crate) fn number_fault(
    alloc: Global,
    style: Style,
    range: NumberRange,
    tree: &Tree,
) -> Option<Fault>
    ensures { result ≡ fault_in (is_number_of range) (number_in style tree.now) }
{
    match tree.number(style) {
        Ok(number) => unless(alloc, is_number_in(range, number)),
        Err(ValueFault::Kind) => here(alloc, Cause::Kind),
        Err(ValueFault::Range) => here(alloc, Cause::Range),
    }
}

pub(crate) fn flag_fault(alloc: Global, style: Style, tree: &Tree) -> Option<Fault>
    ensures { result ≡ flag style tree.now }
{
    match tree.flag(style) {
        Ok(_) => None,
        Err(ValueFault::Kind) => here(alloc, Cause::Kind),
        Err(ValueFault::Range) => here(alloc, Cause::Range),
    }
}

pub(crate) fn time_fault(alloc: Global, style: Style, tree: &Tree) -> Option<Fault>
    ensures { result ≡ time style tree.now }
{
    match tree.duration(style) {
        Ok(_) => None,
        Err(ValueFault::Kind) => here(alloc, Cause::Kind),
        Err(ValueFault::Range) => here(alloc, Cause::Range),
    }
}

/// The fault of a field line in a table of names and values.
pub(crate) fn line_fault(alloc: Global, name: &[u8], value: &Tree) -> Option<Fault>
    ensures { result ≡ line_fault (name.now, value.now) }
{
    if !is_field_name(name) {
        return here(alloc, Cause::Range);
    }
    match value.text() {
        Ok(text) => unless(alloc, is_field_value(text)),
        Err(ValueFault::Kind) => here(alloc, Cause::Kind),
        Err(ValueFault::Range) => here(alloc, Cause::Range),
    }
}

/// The fault of a value of the right kind that is not in the range.
fn unless(alloc: Global, in_range: bool) -> Option<Fault>
    ensures { result ≡ fault_unless in_range }
{
    if in_range {
        None
    } else {
        here(alloc, Cause::Range)
    }
}
