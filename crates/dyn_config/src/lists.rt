//! The elements of lists, and field lines.

ghost use Rattle.std.specs.Prelude.{◌≡◌, [], ◌∷◌, ◌++◌, map, filter, unwrap_or, Some, IfOk, OnOk};
ghost use Rattle.std.specs.Map.{values_of};
ghost use Rattle.std.specs.Option.{option_copied};
ghost use Rattle.field_tree.specs.declared.values.Style.TheVariants.{Typed, Texts};
ghost use Rattle.dyn_config.specs.Readings.{value_under, elements, elements_of, texts_under, text_or, line_of, is_line, lines_under, entries_under, by_number};
ghost use Rattle.dyn_config.specs.Ordered.{entry_view};

use crate::found::Order;
use crate::options::value_under;
use crate::ordered::{EntryRef, in_order};
use crate::ranges::{is_field_name, is_field_value};
use field_tree::{Fields, Style, Tree};
use px_base::{Bytes, List, Memory};
use std::alloc::Global;

/// The elements of the list that an option is, in their order.
pub(crate) fn elements<'a>(
    alloc: Global,
    style: Style,
    key: &[u8],
    tree: &'a Tree,
) -> Result<Vec<&'a Tree>, Memory>
    ensures { IfOk result (λ found. map (λ element. element.now) found.items ≡ elements style (value_under key.now tree.now)) }
{
    match value_under(key, tree) {
        None => Ok(Vec::new(alloc)),
        Some(value) => match style {
            Style::Typed => in_list(alloc, value),
            Style::Texts => in_table(alloc, value),
        },
    }
}

fn in_list<'a>(alloc: Global, tree: &'a Tree) -> Result<Vec<&'a Tree>, Memory>
    ensures { IfOk result (λ found. map (λ element. element.now) found.items ≡ elements_of Typed tree.now) }
{
    match tree.list() {
        None => Ok(Vec::new(alloc)),
        Some(values) => references(alloc, values),
    }
}

fn references<'a>(alloc: Global, values: &'a [Tree]) -> Result<Vec<&'a Tree>, Memory>
    ensures { IfOk result (λ found. map (λ element. element.now) found.items ≡ values.now) }
{
    let mut found = Vec::new(alloc);
    for value in values {
        found.push(value)?;
    }
    Ok(found)
}

/// The texts of the list that an option is.
pub(crate) fn texts_under(
    alloc: Global,
    style: Style,
    key: &[u8],
    tree: &Tree,
) -> Result<List<Bytes>, Memory>
    ensures { IfOk result (λ texts. texts ≡ texts_under style key.now tree.now) }
{
    let found = elements(alloc, style, key, tree)?;
    let mut texts = List::new(alloc);
    for at in 0..found.len() {
        texts.push(own_text(alloc, found[at])?)?;
    }
    Ok(texts)
}

fn own_text(alloc: Global, tree: &Tree) -> Result<Bytes, Memory>
    ensures { IfOk result (λ text. text ≡ text_or [] (Some tree.now)) }
{
    Bytes::from_slice(alloc, text_in(tree))
}

/// The field lines of the table that an option is.
pub(crate) fn lines_under(
    alloc: Global,
    key: &[u8],
    tree: &Tree,
) -> Result<List<(Bytes, Bytes)>, Memory>
    ensures { IfOk result (λ lines. lines ≡ lines_under key.now tree.now) }
{
    match fields_under(key, tree) {
        None => Ok(List::new(alloc)),
        Some(fields) => lines_in(alloc, fields),
    }
}

/// The table that an option is.
pub(crate) fn fields_under<'a>(key: &[u8], tree: &'a Tree) -> Option<&'a Fields<Tree>>
    ensures { unwrap_or (option_copied result) [] ≡ entries_under key.now tree.now }
{
    match value_under(key, tree) {
        None => None,
        Some(value) => value.table(),
    }
}

fn lines_in(alloc: Global, fields: &Fields<Tree>) -> Result<List<(Bytes, Bytes)>, Memory>
    ensures { IfOk result (λ lines. lines ≡ filter is_line (map line_of fields.now)) }
{
    let mut lines = List::new(alloc);
    for at in 0..fields.len() {
        let text = text_in(fields.value(at));
        push_line(alloc, &mut lines, fields.key(at), text)?;
    }
    Ok(lines)
}

fn push_line(
    alloc: Global,
    lines: &mut List<(Bytes, Bytes)>,
    name: &[u8],
    value: &[u8],
) -> Result<(), Memory>
    ensures { OnOk result (lines.new ≡ lines.old ++ filter is_line ((name.now, value.now) ∷ [])) }
{
    if !is_line(name, value) {
        return Ok(());
    }
    let name = Bytes::from_slice(alloc, name)?;
    let value = Bytes::from_slice(alloc, value)?;
    lines.push((name, value))
}

fn is_line(name: &[u8], value: &[u8]) -> bool
    ensures { result ≡ is_line (name.now, value.now) }
{
    is_field_name(name) && is_field_value(value)
}

/// A text, empty where the value is none.
fn text_in(tree: &Tree) -> &[u8]
    ensures { result.now ≡ text_or [] (Some tree.now) }
{
    match tree.text() {
        Ok(text) => text,
        Err(_) => b"".as_slice(),
    }
}

/// The elements of a list of style `Texts`, by their numbers.
fn in_table<'a>(alloc: Global, tree: &'a Tree) -> Result<Vec<&'a Tree>, Memory>
    ensures { IfOk result (λ found. map (λ element. element.now) found.items ≡ elements_of Texts tree.now) }
{
    match tree.table() {
        None => Ok(Vec::new(alloc)),
        Some(fields) => {
            let entries = by_number(alloc, fields)?;
            values_at(alloc, entries.as_slice())
        }
    }
}

/// The entries of a table, by their numbers.
fn by_number<'a>(alloc: Global, fields: &'a Fields<Tree>) -> Result<Vec<EntryRef<'a>>, Memory>
    ensures { IfOk result (λ entries. map entry_view entries.items ≡ by_number fields.now) }
{
    in_order(alloc, Order::Number, fields)
}

fn values_at<'a>(alloc: Global, entries: &[EntryRef<'a>]) -> Result<Vec<&'a Tree>, Memory>
    ensures { IfOk result (λ found. map (λ element. element.now) found.items ≡ values_of (map entry_view entries.now)) }
{
    let mut found = Vec::new(alloc);
    for at in 0..entries.len() {
        found.push(entries[at].value)?;
    }
    Ok(found)
}
