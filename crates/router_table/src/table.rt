//! The routers of a configuration as a table.
ghost use Rattle.std.specs.Prelude.{◌≡◌, ◌+◌, ◌-◌, ◌^◌, ◌≤◌, ◌<◌, min, count_by, length, map, IfOk};
ghost use Rattle.std.proofs.Props.{props};
ghost use Rattle.router_table.specs.Settings.{setting_of};
ghost use Rattle.router_table.specs.Rows.{AreRows, is_refused};
ghost use Rattle.router_table.specs.Orders.{AreWithin, AreAll, AreInOrder};

mod building;

use crate::row::Row;
pub use building::{build_table, rows};
use px_base::List;

/// All routers of a configuration by name, and the order in which they are asked.
#[derive(Drop)]
pub struct Table {
    pub(crate) rows: List<Row>,
    // The numbers of the enabled rows, by falling priority, and of equal priority by name.
    pub(crate) order: List<u32>,
    ghost within: { AreWithin rows order },
    ghost all: { AreAll rows order } by { Prim.hlevel props },
    ghost in_order: { AreInOrder rows order } by { Prim.hlevel props },
}
