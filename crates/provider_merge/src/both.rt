//! Two providers' configurations as one.
ghost use Rattle.std.specs.Prelude.{◌≤◌, IfOk, length};
ghost use Rattle.provider_merge.specs.Merging.{IsMerged};

use crate::union::{middlewares_of, routers_of, services_of};
use dyn_config::{Config, Merged};
use px_base::Memory;
use std::alloc::Global;

/// The configurations of the file provider and of Consul as one: what each declares, under qualified names. A provider without a
/// configuration has an empty one.
pub fn merge(alloc: Global, file: Config, consul: Config) -> Result<Merged, Memory>
    ensures merged { IfOk result (IsMerged file consul) }
    // Each provider declares at most 500 services.
    ensures few { IfOk result (λ m. length m.services ≤ 1000) }
{
    let routers = routers_of(alloc, file.routers, consul.routers)?;
    let services = services_of(alloc, file.services, consul.services)?;
    let middlewares = middlewares_of(alloc, file.middlewares, consul.middlewares)?;
    Ok(Merged {
        routers,
        services,
        middlewares,
    })
}
