//! The entries of a table in an order of their keys, in which keys that are one stand side by side.

ghost use Rattle.std.specs.Prelude.{◌≡◌, map, IfOk};
ghost use Rattle.std.specs.List.Sorted.{IsPermutation};
ghost use Rattle.field_tree.specs.Table.{KeysRise};
ghost use Rattle.dyn_config.specs.Walk.{has_twin};
ghost use Rattle.dyn_config.specs.Shapes.{sameness_of};
ghost use Rattle.dyn_config.specs.Ordered.{entry_view, AreInOrder};

use crate::found::{Order, is_before, visit_order};
use crate::numbers::is_same_number;
use field_tree::{Fields, Tree};
use px_base::{Memory, fold_equal};
use std::alloc::Global;

/// An entry of a table.
#[derive(Clone, Copy)]
pub(crate) struct EntryRef<'a> {
    pub(crate) key: &'a [u8],
    pub(crate) value: &'a Tree,
}

/// The entries of a table in an order.
pub(crate) fn in_order<'a>(
    alloc: Global,
    order: Order,
    fields: &'a Fields<Tree>,
) -> Result<Vec<EntryRef<'a>>, Memory>
    ensures all { IfOk result (λ entries. IsPermutation fields.now (map entry_view entries.items)) }
    ensures ordered { IfOk result (λ entries. AreInOrder order entries.items) }
    ensures rising { KeysRise fields.now }
{
    let mut entries = entries_of(alloc, fields)?;
    entries.sort_by(|a, b| visit_order(order, a.key, b.key))?;
    Ok(entries)
}

fn entries_of<'a>(alloc: Global, fields: &'a Fields<Tree>) -> Result<Vec<EntryRef<'a>>, Memory>
    ensures entries { IfOk result (λ entries. map entry_view entries.items ≡ fields.now) }
    ensures rising { KeysRise fields.now }
{
    let mut entries = Vec::new(alloc);
    for at in 0..fields.len() {
        let (key, value) = (fields.key(at), fields.value(at));
        entries.push(EntryRef { key, value })?;
    }
    Ok(entries)
}

/// Whether a lesser key of the entries, by its bytes, is one with the key. It looks at as many entries as
/// their number has binary digits.
pub(crate) fn has_twin(order: Order, entries: &[EntryRef<'_>], key: &[u8]) -> bool
    requires { AreInOrder order entries.now }
    ensures { result ≡ has_twin (sameness_of order) (map entry_view entries.now) key.now }
{
    let at = entries.partition_point(|entry| is_before(order, entry.key, key));
    at > 0 && are_one(order, entries[at - 1].key, key)
}

/// Whether two keys are one: where names count, those that differ in ASCII case alone, and where numbers
/// count, those of one number.
fn are_one(order: Order, a: &[u8], b: &[u8]) -> bool
    ensures { result ≡ sameness_of order a.now b.now }
{
    match order {
        Order::Walk => fold_equal(a, b),
        Order::Number => is_same_number(a, b),
    }
}
