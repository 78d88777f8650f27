//! What holds of every text.
ghost use Rattle.std.specs.Prelude.{◌≡◌, ℕ, Some, map, slice_get};
ghost use Rattle.dyn_config.specs.declared.merged.Merged.{Merged};
ghost use Rattle.middleware_chain.specs.Built.{listed_name};
ghost use Rattle.middleware_chain.specs.Names.{name_of};
ghost use Rattle.service_faults.specs.References.{ServiceEntry};
ghost use Rattle.runtime_config.specs.Runtime.{IsRuntime};
ghost use Rattle.runtime_config.specs.declared.config.RuntimeConfig.{RuntimeConfig};
ghost use Rattle.generation_text.specs.Told.{TellsState, name_of_router, name_of_row};

/// Each declared router has its line: there is one row a router, in the same order and under the same name.
pub fn routers_are_told()
    ensures { (m : Merged) (r : RuntimeConfig) → IsRuntime m r → map name_of_row r.table.rows ≡ map name_of_router m.routers }
{}

/// Each declared service has its lines: those of its node, or the one that names the first reason against it.
pub fn services_are_told()
    ensures { (m : Merged) (r : RuntimeConfig) (is : IsRuntime m r) (at : ℕ) (e : ServiceEntry)
        → slice_get m.services at ≡ Some e → TellsState r.graph e (is.graph.judged at) }
{}

/// Each declared middleware has its line: one is listed for each, in the same order and under the same name.
pub fn middlewares_are_told()
    ensures { (m : Merged) (r : RuntimeConfig) → IsRuntime m r → map listed_name r.chains.middlewares ≡ map name_of m.middlewares }
{}
