//! Whether a configuration is one that is served so far.
ghost use Rattle.std.specs.Prelude.{◌≡◌, ◌↔◌, IsTrue, IfOk, All};
ghost use Rattle.service_graph.specs.Only.{IsFirstForm, NamesNone, HasOnly};

use crate::only::only_server;
use dyn_config::{Entry, Merged, RouterDef, ServiceDef};
use px_base::Memory;
use std::alloc::Global;

/// Whether the configuration is of the first form: no middleware is declared or named, and each service is a balancer of
/// exactly one server of positive weight under an `http` URL, without stickiness and health check.
pub fn is_first_form(alloc: Global, merged: &Merged) -> Result<bool, Memory>
    ensures { IfOk result (λ yes. IsTrue yes ↔ IsFirstForm merged.now) }
{
    if !merged.middlewares.is_empty() || !name_none(merged.routers.as_slice()) {
        return Ok(false);
    }
    have_only(alloc, merged.services.as_slice())
}

// Whether no router names a middleware.
fn name_none(routers: &[Entry<RouterDef>]) -> bool
    ensures { IsTrue result ↔ All NamesNone routers.now }
{
    routers.iter().all(names_none)
}

fn names_none(router: &Entry<RouterDef>) -> bool
    ensures { IsTrue result ↔ NamesNone router.now }
{
    router.def.middlewares.is_empty()
}

// Whether each service has its one server.
fn have_only(alloc: Global, services: &[Entry<ServiceDef>]) -> Result<bool, Memory>
    ensures { IfOk result (λ yes. IsTrue yes ↔ All HasOnly services.now) }
{
    for service in services {
        if !has_only(alloc, service)? {
            return Ok(false);
        }
    }
    Ok(true)
}

fn has_only(alloc: Global, service: &Entry<ServiceDef>) -> Result<bool, Memory>
    ensures { IfOk result (λ yes. IsTrue yes ↔ HasOnly service.now) }
{
    match only_server(alloc, &service.def)? {
        Some(_) => Ok(true),
        None => Ok(false),
    }
}
