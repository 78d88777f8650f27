//! The order in which rows are asked: by falling priority, and of equal priority by name.
ghost use Rattle.std.specs.Prelude.{◌≡◌, ◌<◌, ◌^◌, All, length, map, IfOk};
ghost use Rattle.std.specs.List.Sorted.{IsStrictlySortedBy};
ghost use Rattle.std.specs.Ordering.{nat_cmp};
ghost use Rattle.std.specs.Cmp.Lexicographic.{slice_cmp};
ghost use Rattle.router_table.specs.declared.row.Row.{Row};
ghost use Rattle.router_table.specs.Orders.{AreWithin, AreAll, AreInOrder, Rank, IsRank, AreRanked};

use crate::row::Row;
use px_base::Memory;
use std::alloc::Global;
use std::cmp::Reverse;

// The numbers of the enabled rows, in the order in which they are asked.
pub(crate) fn order_of(alloc: Global, rows: &[Row]) -> Result<Vec<u32>, Memory>
    requires short { length rows.now < 2 ^ 32 }
    requires named { IsStrictlySortedBy (slice_cmp nat_cmp) (map (λ (r : Row). r.name) rows.now) }
    ensures within { IfOk result (λ order. AreWithin rows.now order.items) }
    ensures all { IfOk result (λ order. AreAll rows.now order.items) }
    ensures in_order { IfOk result (λ order. AreInOrder rows.now order.items) }
{
    let mut ranks = ranks_of(alloc, rows)?;
    ranks.sort()?;
    numbers_of(alloc, ranks.as_slice())
}

// The priority and the number of each enabled row.
fn ranks_of(alloc: Global, rows: &[Row]) -> Result<Vec<(Reverse<i64>, u32)>, Memory>
    requires { length rows.now < 2 ^ 32 }
    ensures are { IfOk result (λ ranks. All (IsRank rows.now) ranks.items) }
    ensures all { IfOk result (λ ranks. AreRanked rows.now (length rows.now) ranks.items) }
{
    let mut ranks = Vec::new(alloc);
    for (number, row) in rows.iter().enumerate() {
        if row.is_enabled() {
            ranks.push((Reverse(row.priority), number as u32))?;
        }
    }
    Ok(ranks)
}

fn numbers_of(alloc: Global, ranks: &[(Reverse<i64>, u32)]) -> Result<Vec<u32>, Memory>
    ensures { IfOk result (λ numbers. numbers.items ≡ map (λ (rank : Rank). rank.1) ranks.now) }
{
    ranks.iter().map(|rank| rank.1).collect(alloc)
}
