//! How a table is built.
ghost use Rattle.std.specs.Prelude.{◌≡◌, ◌≤◌, IfOk};
ghost use Rattle.router_table.specs.Settings.{setting_of};
ghost use Rattle.router_table.specs.Rows.{AreRows, Refuses};
ghost use Rattle.router_table.specs.Steps.{meant};

use super::Table;
use crate::judging::row_of;
use crate::order::order_of;
use crate::row::Row;
use crate::setting::Setting;
use dyn_config::Merged;
use px_base::{Bytes, List, Memory};
use rule_eval::PatternShop;
use std::alloc::{AllocError, Global};

/// The table of a configuration's routers, where `services` are the names of the usable services, `middlewares` those of the
/// usable middlewares with their flattened lengths, and `spare` is how many patterns may be built.
///
/// A router without an earlier fault whose patterns fit in what is left uses them, also where it is disabled after all.
pub fn build_table<S: PatternShop>(
    alloc: Global,
    merged: &Merged,
    services: &[Bytes],
    middlewares: &[(Bytes, u32)],
    spare: u32,
    shop: &mut S,
) -> Result<Table, Memory>
    requires { spare ≤ 256 }
    // Each router has its row, in their order, with its first fault if it has one.
    ensures rows { IfOk result (λ table.
        AreRows (setting_of merged.now services.now middlewares.now) spare merged.now.routers table.rows) }
    // The shop refused a pattern for each router that is disabled for that.
    ensures refused { IfOk result (λ table. Refuses (S.refusals shop.old) (S.refusals shop.new) table.rows) }
    ensures later { S.refusals shop.old ≤ S.refusals shop.new }
{
    let setting = Setting {
        merged,
        services,
        middlewares,
    };
    let rows = rows_of(alloc, &setting, spare, shop)?;
    if rows.len() > u32::MAX as usize {
        return Err(AllocError);
    }
    let order = order_of(alloc, rows.as_slice())?;
    Ok(Table {
        rows,
        order: List::from_vec(order),
    })
}

fn rows_of<S: PatternShop>(
    alloc: Global,
    setting: &Setting<'_>,
    spare: u32,
    shop: &mut S,
) -> Result<List<Row>, Memory>
    requires { spare ≤ 256 }
    ensures rows { IfOk result (AreRows (meant setting.now) spare setting.now.merged.now.routers) }
    ensures refused { IfOk result (Refuses (S.refusals shop.old) (S.refusals shop.new)) }
    ensures later { S.refusals shop.old ≤ S.refusals shop.new }
{
    let mut rows = List::new(alloc);
    let mut left = spare;
    for entry in setting.merged.routers.as_slice() {
        let row = row_of(alloc, setting, entry, &mut left, shop)?;
        rows.push(row)?;
    }
    Ok(rows)
}

/// All routers, by name.
pub fn rows(table: &Table) -> &[Row]
    ensures { result.now ≡ table.now.rows }
{
    table.rows.as_slice()
}
