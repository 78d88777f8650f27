//! The router that a request gets.
ghost use Rattle.std.specs.Prelude.{◌≡◌, true, IfOk, IsOk};
ghost use Rattle.std.specs.List.{list_all};
ghost use Rattle.rule_eval.specs.Truth.{asked_of};
ghost use Rattle.router_table.specs.Winner.{WinnerIs, is_plain_row};

use crate::table::Table;
use head_view::RequestView;
use ip_net::Ip;
use px_base::Memory;
use std::alloc::Global;

/// The row of the router that a request gets: of those that are enabled, on its entry point, and whose rule is true of it,
/// the one of greatest priority, and of equal ones the one of least name. None exactly where there is none.
///
/// Where no rule asks a pattern or the query, it takes no memory.
pub fn winner(
    alloc: Global,
    table: &Table,
    entry: &[u8],
    view: &RequestView<'_>,
    peer: Ip,
) -> Result<Option<u32>, Memory>
    ensures winner { IfOk result (WinnerIs table.now.rows entry.now (asked_of view.now) peer) }
    ensures plain { list_all is_plain_row table.now.rows ≡ true → IsOk result }
{
    let rows = table.rows.as_slice();
    for number in table.order.as_slice() {
        if rows[*number as usize].serves(alloc, entry, view, peer)? {
            return Ok(Some(*number));
        }
    }
    Ok(None)
}
