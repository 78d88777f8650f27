//! Where the references of services lead, by places among the declared ones.
ghost use Rattle.std.specs.Prelude.{◌≡◌, ◌++◌, ◌∷◌, [], ◌≤◌, true, map, IfOk, OnOk};
ghost use Rattle.std.specs.List.{list_all};
ghost use Rattle.dyn_config.specs.Joined.{is_qualified};
ghost use Rattle.service_faults.specs.References.{HasProvider, links_of as all_links, place_from, place_of as declared_place, places_of as declared_places};

use dyn_config::{Entry, ServiceDef, refer};
use px_base::{Bytes, List, Memory};
use std::alloc::Global;

// For each service, where its references lead.
pub(crate) fn links_of(
    alloc: Global,
    services: &[Entry<ServiceDef>],
) -> Result<Vec<List<Option<usize>>>, Memory>
    requires { list_all is_qualified services.now ≡ true }
    ensures { IfOk result (λ links. links.items ≡ all_links services.now) }
{
    let mut links = Vec::new(alloc);
    for service in services {
        links.push(places_of(alloc, services, service)?)?;
    }
    Ok(links)
}

fn places_of(
    alloc: Global,
    services: &[Entry<ServiceDef>],
    service: &Entry<ServiceDef>,
) -> Result<List<Option<usize>>, Memory>
    requires { HasProvider service.now }
    ensures { IfOk result (λ places. places ≡ declared_places services.now service.now) }
{
    let provider = service.provider;
    let mut places = List::new(alloc);
    match &service.def {
        ServiceDef::Balancer(_) => {}
        ServiceDef::Weighted(weighted) => {
            add_all(
                alloc,
                services,
                provider,
                weighted.names.as_slice(),
                &mut places,
            )?;
        }
        ServiceDef::Mirroring(mirroring) => {
            add(
                alloc,
                services,
                provider,
                mirroring.service.as_slice(),
                &mut places,
            )?;
            add_all(
                alloc,
                services,
                provider,
                mirroring.mirrors.as_slice(),
                &mut places,
            )?;
        }
        ServiceDef::Failover(failover) => {
            add(
                alloc,
                services,
                provider,
                failover.service.as_slice(),
                &mut places,
            )?;
            add(
                alloc,
                services,
                provider,
                failover.fallback.as_slice(),
                &mut places,
            )?;
        }
        ServiceDef::Unsupported => {}
    }
    Ok(places)
}

// Adds where each of a provider's references leads.
fn add_all(
    alloc: Global,
    services: &[Entry<ServiceDef>],
    provider: u32,
    references: &[Bytes],
    places: &mut List<Option<usize>>,
) -> Result<(), Memory>
    requires { provider ≤ 1 }
    ensures { OnOk result (places.new ≡ places.old ++ map (declared_place services.now provider) references.now) }
{
    for reference in references {
        add(alloc, services, provider, reference.as_slice(), places)?;
    }
    Ok(())
}

fn add(
    alloc: Global,
    services: &[Entry<ServiceDef>],
    provider: u32,
    reference: &[u8],
    places: &mut List<Option<usize>>,
) -> Result<(), Memory>
    requires { provider ≤ 1 }
    ensures { OnOk result (places.new ≡ places.old ++ declared_place services.now provider reference.now ∷ []) }
{
    let name = refer(alloc, provider, reference)?;
    places.push(place_named(services, name.as_slice()))
}

// The place of the service with this name.
fn place_named(services: &[Entry<ServiceDef>], name: &[u8]) -> Option<usize>
    ensures { result ≡ place_from 0 services.now name.now }
{
    for (at, service) in services.iter().enumerate() {
        if service.name.as_slice() == name {
            return Some(at);
        }
    }
    None
}
