//! Which services `route` follows so far.
ghost use Rattle.std.specs.Prelude.{◌≡◌};
ghost use Rattle.std.specs.List.{list_all};
ghost use Rattle.route_cmd.specs.Services.{has_one_server as has_one, has_weight as weighs, is_of_one_server as is_entry_of_one, is_one as are_one};

use dyn_config::{Entry, ServerDef, ServiceDef};

// Whether each service is a balancer of exactly one server of positive weight, without stickiness and health check.
pub(crate) fn have_one_server(services: &[Entry<ServiceDef>]) -> bool
    ensures { result ≡ list_all is_entry_of_one services.now }
{
    services.iter().all(is_of_one_server)
}

fn is_of_one_server(service: &Entry<ServiceDef>) -> bool
    ensures { result ≡ is_entry_of_one service.now }
{
    has_one_server(&service.def)
}

fn has_one_server(def: &ServiceDef) -> bool
    ensures { result ≡ has_one def.now }
{
    match def {
        ServiceDef::Balancer(balancer) => {
            balancer.sticky.is_none()
                && balancer.health.is_none()
                && is_one(balancer.servers.as_slice())
        }
        ServiceDef::Weighted(_) => false,
        ServiceDef::Mirroring(_) => false,
        ServiceDef::Failover(_) => false,
        ServiceDef::Unsupported => false,
    }
}

fn is_one(servers: &[ServerDef]) -> bool
    ensures { result ≡ are_one servers.now }
{
    servers.len() == 1 && have_weight(servers)
}

fn have_weight(servers: &[ServerDef]) -> bool
    ensures { result ≡ list_all weighs servers.now }
{
    servers.iter().all(has_weight)
}

fn has_weight(server: &ServerDef) -> bool
    ensures { result ≡ weighs server.now }
{
    server.weight > 0
}
