//! The one server of a service.
ghost use Rattle.std.specs.Prelude.{◌≡◌, ◌↔◌, IsTrue, None, IfOk, MatchOption};
ghost use Rattle.px_base.specs.declared.server.Server.{Server as Found};
ghost use Rattle.service_graph.specs.Only.{IsServer, IsOnlyOf, IsOnlyServer};

use crate::url::read_server_url;
use dyn_config::{BalancerDef, ServerDef, ServiceDef};
use px_base::{Bytes, Memory, Server};
use std::alloc::Global;

/// The server of a service that is a balancer of exactly one server, whose weight is positive and whose URL is one of `http`, without
/// stickiness and health check. None exactly where the service isn't so.
pub fn only_server(alloc: Global, def: &ServiceDef) -> Result<Option<Server>, Memory>
    ensures { IfOk result (λ found. MatchOption found ((s : Found) → ¬ (IsOnlyServer def.now s)) (IsOnlyServer def.now)) }
{
    match def {
        ServiceDef::Balancer(balancer) => only_of(alloc, balancer),
        ServiceDef::Weighted(_) => Ok(None),
        ServiceDef::Mirroring(_) => Ok(None),
        ServiceDef::Failover(_) => Ok(None),
        ServiceDef::Unsupported => Ok(None),
    }
}

fn only_of(alloc: Global, balancer: &BalancerDef) -> Result<Option<Server>, Memory>
    ensures { IfOk result (λ found. MatchOption found ((s : Found) → ¬ (IsOnlyOf balancer.now s)) (IsOnlyOf balancer.now)) }
{
    if !is_plain(balancer) {
        return Ok(None);
    }
    match balancer.servers.as_slice() {
        [server] => server_of(alloc, server),
        _ => Ok(None),
    }
}

// Whether the balancer has neither stickiness nor a health check.
fn is_plain(balancer: &BalancerDef) -> bool
    ensures { IsTrue result ↔ ((balancer.now.sticky ≡ None) × (balancer.now.health ≡ None)) }
{
    balancer.sticky.is_none() && balancer.health.is_none()
}

fn server_of(alloc: Global, def: &ServerDef) -> Result<Option<Server>, Memory>
    ensures { IfOk result (λ found. MatchOption found ((s : Found) → ¬ (IsServer def.now s)) (IsServer def.now)) }
{
    if def.weight == 0 {
        return Ok(None);
    }
    match read_server_url(def.url.as_slice()) {
        Ok(url) => {
            let host = Bytes::from_slice(alloc, url.host)?;
            Ok(Some(Server {
                host,
                port: url.port,
                weight: def.weight,
            }))
        }
        Err(_) => Ok(None),
    }
}
