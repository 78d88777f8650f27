//! Why a service is disabled for itself, whatever it refers to.
ghost use Rattle.std.specs.Prelude.{◌≡◌, ◌≤◌, true, IfOk, length, map};
ghost use Rattle.dyn_config.specs.Kept.{is_service, is_weighted};
ghost use Rattle.service_faults.specs.Own.{IsOwnState, AreWeightsState, IsBalancerState, IsWeightedState, IsMirroringState, IsUrlState, is_supported as has_support, weight_of};

use crate::fault::ServiceFault;
use dyn_config::{BalancerDef, MirroringDef, ServerDef, ServiceDef, WeightedDef};
use px_base::Memory;
use service_graph::{UrlFault, read_server_url};
use std::alloc::Global;
use wrr_deadlines::period_of;

/// The greatest number of servers or services of one service.
const MAX_CHILDREN: usize = 64;

/// The greatest sum of a service's weights, divided by what they have in common.
const MAX_WEIGHTS: u64 = 65_536;

// The first reason against a service that lies in its own options.
pub(crate) fn own_fault(alloc: Global, def: &ServiceDef) -> Result<Option<ServiceFault>, Memory>
    requires { is_service def.now ≡ true }
    ensures { IfOk result (IsOwnState def.now) }
{
    match def {
        ServiceDef::Balancer(balancer) => balancer_fault(alloc, balancer),
        ServiceDef::Weighted(weighted) => Ok(weighted_fault(weighted)),
        ServiceDef::Mirroring(mirroring) => Ok(mirroring_fault(mirroring)),
        ServiceDef::Failover(_) => Ok(None),
        ServiceDef::Unsupported => Ok(Some(ServiceFault::Unsupported)),
    }
}

fn balancer_fault(alloc: Global, balancer: &BalancerDef) -> Result<Option<ServiceFault>, Memory>
    ensures { IfOk result (IsBalancerState balancer.now) }
{
    if !is_supported(balancer) {
        return Ok(Some(ServiceFault::Unsupported));
    }
    let servers = balancer.servers.as_slice();
    if servers.len() > MAX_CHILDREN {
        return Ok(Some(ServiceFault::TooManyChildren));
    }
    match url_fault(servers) {
        Some(UrlFault::Scheme) => Ok(Some(ServiceFault::Scheme)),
        Some(UrlFault::BadUrl) => Ok(Some(ServiceFault::BadUrl)),
        None => {
            let weights = weights_of(alloc, servers)?;
            Ok(weights_fault(weights.as_slice()))
        }
    }
}

// Whether neither the balancer nor its health check asks for what is not supported.
fn is_supported(balancer: &BalancerDef) -> bool
    ensures { result ≡ has_support balancer.now }
{
    match &balancer.health {
        Some(health) => !balancer.unsupported && !health.unsupported,
        None => !balancer.unsupported,
    }
}

// The fault of the first server whose URL can't be used.
fn url_fault(servers: &[ServerDef]) -> Option<UrlFault>
    ensures { IsUrlState servers.now result }
{
    let mut rest = servers;
    while let Some((server, more)) = rest.split_first() {
        if let Err(fault) = read_server_url(server.url.as_slice()) {
            return Some(fault);
        }
        rest = more;
    }
    None
}

fn weights_of(alloc: Global, servers: &[ServerDef]) -> Result<Vec<u32>, Memory>
    ensures { IfOk result (λ weights. weights.items ≡ map weight_of servers.now) }
{
    let mut weights = Vec::new(alloc);
    for server in servers {
        weights.push(server.weight)?;
    }
    Ok(weights)
}

// The fault of at most 64 weights.
fn weights_fault(weights: &[u32]) -> Option<ServiceFault>
    requires { length weights.now ≤ 64 }
    ensures { AreWeightsState weights.now result }
{
    if period_of(weights) > MAX_WEIGHTS {
        Some(ServiceFault::WeightsTooLarge)
    } else {
        None
    }
}

fn weighted_fault(weighted: &WeightedDef) -> Option<ServiceFault>
    requires { is_weighted weighted.now ≡ true }
    ensures { IsWeightedState weighted.now result }
{
    if weighted.names.len() > MAX_CHILDREN {
        return Some(ServiceFault::TooManyChildren);
    }
    weights_fault(weighted.weights.as_slice())
}

fn mirroring_fault(mirroring: &MirroringDef) -> Option<ServiceFault>
    ensures { IsMirroringState mirroring.now result }
{
    if mirroring.unsupported {
        Some(ServiceFault::Unsupported)
    } else if mirroring.mirrors.len() >= MAX_CHILDREN {
        Some(ServiceFault::TooManyChildren)
    } else {
        None
    }
}
