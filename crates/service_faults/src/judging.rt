//! Why services are disabled.
ghost use Rattle.std.specs.Prelude.{◌≡◌, ◌<◌, true, length, map, is_some, IfOk};
ghost use Rattle.dyn_config.specs.Kept.{is_service};
ghost use Rattle.reference_graph.specs.Links.{AreWithin, links_at};
ghost use Rattle.reference_graph.specs.Heights.{are_sound, is_sound as has_height, is_sound_link};
ghost use Rattle.service_faults.specs.Faults.{is_declared as all_declared};
ghost use Rattle.service_faults.specs.References.{is_entry};
ghost use Rattle.std.specs.List.{list_all};
ghost use Rattle.service_faults.specs.Blocked.{AreBlocked, IsBlockedBy, judged_by};

use crate::fault::ServiceFault;
use crate::own::own_fault;
use dyn_config::{Entry, ServiceDef};
use px_base::{List, Memory};
use reference_graph::{Height, places_at, reaches_itself};
use std::alloc::Global;

// What stands against the service at a place before the services that it refers to are judged.
pub(crate) fn blocked_by(
    alloc: Global,
    links: &[List<Option<usize>>],
    service: &Entry<ServiceDef>,
    at: usize,
) -> Result<Option<ServiceFault>, Memory>
    requires in_range { is_service service.now.def ≡ true }
    requires within { AreWithin links.now }
    requires inside { at < length links.now }
    ensures { IfOk result (IsBlockedBy links.now service.now at) }
{
    if let Some(fault) = own_fault(alloc, &service.def)? {
        return Ok(Some(fault));
    }
    if !is_declared(links, at) {
        return Ok(Some(ServiceFault::Missing));
    }
    if reaches_itself(alloc, links, at)? {
        return Ok(Some(ServiceFault::Cycle));
    }
    Ok(None)
}

// Whether each reference leads to a declared service.
fn is_declared(links: &[List<Option<usize>>], at: usize) -> bool
    requires { at < length links.now }
    ensures { result ≡ all_declared links.now at }
{
    places_at(links, at).iter().all(|place| place.is_some())
}

// What stands against each service before the services that it refers to are judged.
pub(crate) fn all_blocked(
    alloc: Global,
    links: &[List<Option<usize>>],
    services: &[Entry<ServiceDef>],
) -> Result<Vec<Option<ServiceFault>>, Memory>
    requires in_range { list_all is_entry services.now ≡ true }
    requires within { AreWithin links.now }
    requires long { length links.now ≡ length services.now }
    ensures { IfOk result (λ blocked. AreBlocked links.now services.now blocked.items) }
{
    let mut blocked = Vec::new(alloc);
    for service in services {
        let at = blocked.len();
        let fault = blocked_by(alloc, links, service, at)?;
        blocked.push(fault)?;
    }
    Ok(blocked)
}

// Which services something stands against.
pub(crate) fn flags_of(alloc: Global, blocked: &[Option<ServiceFault>]) -> Result<Vec<bool>, Memory>
    ensures { IfOk result (λ flags. flags.items ≡ map is_some blocked.now) }
{
    let mut flags = Vec::new(alloc);
    for fault in blocked {
        flags.push(fault.is_some())?;
    }
    Ok(flags)
}

// Why a service is disabled, if it is.
pub(crate) fn judge(
    links: &[List<Option<usize>>],
    heights: &[Option<Height>],
    blocked: Option<ServiceFault>,
    at: usize,
) -> Option<ServiceFault>
    requires inside { at < length links.now }
    ensures { result ≡ judged_by links.now heights.now blocked at }
{
    match blocked {
        Some(fault) => Some(fault),
        None => if is_sound(heights, at) {
            None
        } else if refers_to_sound(links, heights, at) {
            Some(ServiceFault::TooDeep)
        } else {
            Some(ServiceFault::Child)
        },
    }
}

fn is_sound(heights: &[Option<Height>], at: usize) -> bool
    ensures { result ≡ has_height heights.now at }
{
    match heights.get(at) {
        Some(height) => height.is_some(),
        None => false,
    }
}

fn refers_to_sound(links: &[List<Option<usize>>], heights: &[Option<Height>], at: usize) -> bool
    requires { at < length links.now }
    ensures { result ≡ are_sound heights.now (links_at links.now at) }
{
    places_at(links, at)
        .iter()
        .all(|place| leads_to_sound(heights, *place))
}

fn leads_to_sound(heights: &[Option<Height>], place: Option<usize>) -> bool
    ensures { result ≡ is_sound_link heights.now place }
{
    match place {
        Some(at) => is_sound(heights, at),
        None => false,
    }
}
