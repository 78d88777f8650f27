//! What holds of every configuration as it runs.
ghost use Rattle.std.specs.Prelude.{◌≡◌, ℕ, Some, true, slice_get};
ghost use Rattle.dyn_config.specs.declared.merged.Merged.{Merged};
ghost use Rattle.router_table.specs.declared.row.Row.{Row};
ghost use Rattle.router_table.specs.Winner.{is_enabled};
ghost use Rattle.runtime_config.specs.declared.config.RuntimeConfig.{RuntimeConfig};
ghost use Rattle.runtime_config.specs.Runtime.{IsRuntime};
ghost use Rattle.runtime_config.specs.Running.{RowRuns};

/// The row of each enabled router has the middlewares that the router names, and leads to the node of the service that it names.
pub fn enabled_routers_run()
    ensures { (m : Merged) (r : RuntimeConfig) (number : ℕ) (row : Row)
        → IsRuntime m r → slice_get r.table.rows number ≡ Some row → is_enabled row ≡ true → RowRuns m r number row }
{}
