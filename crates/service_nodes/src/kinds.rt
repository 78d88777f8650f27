//! What nodes do, by what their services are declared to do.
ghost use Rattle.std.specs.Prelude.{◌≡◌, ◌+◌, [], Some, None, All, length, map, IfOk};
ghost use Rattle.reference_graph.specs.Numbering.{number_in};
ghost use Rattle.service_faults.specs.Own.{IsBalancerState, IsOwnState};
ghost use Rattle.service_faults.specs.References.{written};
ghost use Rattle.service_nodes.specs.Nodes.{IsFailover, IsKindOf, children_of, number_behind};
ghost use Rattle.service_nodes.specs.Ready.{HasNumber};

use crate::children::{child_at, children_at};
use crate::node::NodeKind;
use crate::servers::servers_of;
use dyn_config::{BalancerDef, MirroringDef, ServiceDef, WeightedDef};
use provider_merge::{copy_health, copy_sticky};
use px_base::{List, Memory};
use std::alloc::Global;

pub(crate) fn kind_of(
    alloc: Global,
    def: &ServiceDef,
    places: &[Option<usize>],
    numbers: &[Option<usize>],
) -> Result<NodeKind, Memory>
    requires plain { IsOwnState def.now None }
    requires long { length places.now ≡ length (written def.now) }
    requires leads { All (HasNumber numbers.now) places.now }
    ensures kind { IfOk result (IsKindOf def.now) }
    ensures children { IfOk result (λ kind. map Some (children_of kind) ≡ map (number_behind (number_in numbers.now)) places.now) }
{
    match def {
        ServiceDef::Balancer(balancer) => balancer_kind(alloc, balancer),
        ServiceDef::Weighted(weighted) => weighted_kind(alloc, weighted, places, numbers),
        ServiceDef::Mirroring(mirroring) => mirroring_kind(alloc, mirroring, places, numbers),
        ServiceDef::Failover(_) => Ok(failover_kind(places, numbers)),
        ServiceDef::Unsupported => unreachable!(),
    }
}

fn balancer_kind(alloc: Global, balancer: &BalancerDef) -> Result<NodeKind, Memory>
    requires { IsBalancerState balancer.now None }
    ensures kind { IfOk result (IsKindOf (ServiceDef.Balancer balancer.now)) }
    ensures children { IfOk result (λ kind. children_of kind ≡ []) }
{
    Ok(NodeKind::Balancer {
        servers: servers_of(alloc, balancer.servers.as_slice())?,
        sticky: copy_sticky(alloc, &balancer.sticky)?,
        pass_host: balancer.pass_host,
        health: copy_health(alloc, &balancer.health)?,
    })
}

fn weighted_kind(
    alloc: Global,
    weighted: &WeightedDef,
    places: &[Option<usize>],
    numbers: &[Option<usize>],
) -> Result<NodeKind, Memory>
    requires { All (HasNumber numbers.now) places.now }
    ensures kind { IfOk result (IsKindOf (ServiceDef.Weighted weighted.now)) }
    ensures children { IfOk result (λ kind. map Some (children_of kind) ≡ map (number_behind (number_in numbers.now)) places.now) }
{
    Ok(NodeKind::Weighted {
        children: children_at(alloc, places, numbers)?,
        weights: List::from_slice(alloc, weighted.weights.as_slice())?,
        sticky: copy_sticky(alloc, &weighted.sticky)?,
    })
}

fn mirroring_kind(
    alloc: Global,
    mirroring: &MirroringDef,
    places: &[Option<usize>],
    numbers: &[Option<usize>],
) -> Result<NodeKind, Memory>
    requires long { length places.now ≡ length mirroring.now.mirrors + 1 }
    requires leads { All (HasNumber numbers.now) places.now }
    ensures kind { IfOk result (IsKindOf (ServiceDef.Mirroring mirroring.now)) }
    ensures children { IfOk result (λ kind. map Some (children_of kind) ≡ map (number_behind (number_in numbers.now)) places.now) }
{
    match places.split_first() {
        Some((main, mirrors)) => Ok(NodeKind::Mirroring {
            main: child_at(*main, numbers),
            mirrors: children_at(alloc, mirrors, numbers)?,
            percents: List::from_slice(alloc, mirroring.percents.as_slice())?,
            max_body: mirroring.max_body,
        }),
        None => unreachable!(),
    }
}

fn failover_kind(places: &[Option<usize>], numbers: &[Option<usize>]) -> NodeKind
    requires long { length places.now ≡ 2 }
    requires leads { All (HasNumber numbers.now) places.now }
    ensures kind { IsFailover result }
    ensures children { map Some (children_of result) ≡ map (number_behind (number_in numbers.now)) places.now }
{
    NodeKind::Failover {
        main: child_at(places[0], numbers),
        fallback: child_at(places[1], numbers),
    }
}
