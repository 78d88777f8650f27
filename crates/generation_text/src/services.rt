//! The lines of services.
ghost use Rattle.std.specs.Prelude.{◌≡◌, ◌+◌, ◌++◌, ℕ, List, IfOk, OnOk, MatchOption};
ghost use Rattle.px_base.specs.declared.server.Server.{Server as OnlyServer};
ghost use Rattle.generation_text.specs.Texts.{balancer_text, node_text, server_text, disabled_text, between, is_usable_def, IsBalancer, PrintsService, PrintServices};

use dyn_config::{Entry, ServiceDef};
use px_base::{Memory, Server, print_decimal};
use service_graph::only_server;
use std::alloc::{AllocError, Global};

/// The lines of services by name: `service <name> balancer node <i>` and `server <node> 0 <host>:<port> weight <w>`, or
/// `service <name> disabled Unsupported`.
pub fn services_text(alloc: Global, services: &[Entry<ServiceDef>]) -> Result<Vec<u8>, Memory>
    ensures { IfOk result (λ text. PrintServices 0 services.now text.items) }
{
    let mut text = Vec::new(alloc);
    let mut place = 0;
    let mut rest = services;
    while let Some((service, more)) = rest.split_first() {
        place = push_service(alloc, place, service, &mut text)?;
        rest = more;
    }
    Ok(text)
}

// Appends the lines of a service, and answers the place of the next node.
fn push_service(
    alloc: Global,
    place: u32,
    service: &Entry<ServiceDef>,
    text: &mut Vec<u8>,
) -> Result<u32, Memory>
    ensures { IfOk result (λ after. (lines : List ℕ) × PrintsService place service.now after lines × (text.new.items ≡ text.old.items ++ lines)) }
{
    match balancer_of(alloc, service)? {
        Some(server) => {
            push_balancer(place, service.name.as_slice(), &server, text)?;
            place.checked_add(1).ok_or(AllocError)
        }
        None => {
            push_disabled(service.name.as_slice(), text)?;
            Ok(place)
        }
    }
}

// The server of a service that can be used.
fn balancer_of(alloc: Global, service: &Entry<ServiceDef>) -> Result<Option<Server>, Memory>
    ensures { IfOk result (λ found. MatchOption found ((s : OnlyServer) → ¬ (IsBalancer service.now s)) (IsBalancer service.now)) }
{
    if is_usable(&service.def) {
        only_server(alloc, &service.def)
    } else {
        Ok(None)
    }
}

// Whether no option of a balancer asks for what is not supported.
fn is_usable(def: &ServiceDef) -> bool
    ensures { result ≡ is_usable_def def.now }
{
    match def {
        ServiceDef::Balancer(balancer) => !balancer.unsupported,
        ServiceDef::Weighted(_) => false,
        ServiceDef::Mirroring(_) => false,
        ServiceDef::Failover(_) => false,
        ServiceDef::Unsupported => false,
    }
}

fn push_balancer(place: u32, name: &[u8], server: &Server, text: &mut Vec<u8>) -> Result<(), Memory>
    ensures { OnOk result (text.new.items ≡ text.old.items ++ balancer_text place name.now server.now) }
{
    push_node(place, name, text)?;
    push_server(place, server, text)
}

fn push_node(place: u32, name: &[u8], text: &mut Vec<u8>) -> Result<(), Memory>
    ensures { OnOk result (text.new.items ≡ text.old.items ++ node_text place name.now) }
{
    text.extend_from_slice(b"service ")?;
    text.extend_from_slice(name)?;
    text.extend_from_slice(b" balancer node ")?;
    print_decimal(place as u64, text)?;
    text.extend_from_slice(b"\n")
}

fn push_server(place: u32, server: &Server, text: &mut Vec<u8>) -> Result<(), Memory>
    ensures { OnOk result (text.new.items ≡ text.old.items ++ server_text place server.now) }
{
    text.extend_from_slice(b"server ")?;
    print_decimal(place as u64, text)?;
    text.extend_from_slice(b" 0 ")?;
    text.extend_from_slice(server.host.as_slice())?;
    text.extend_from_slice(b":")?;
    print_decimal(server.port as u64, text)?;
    text.extend_from_slice(b" weight ")?;
    print_decimal(server.weight as u64, text)?;
    text.extend_from_slice(b"\n")
}

fn push_disabled(name: &[u8], text: &mut Vec<u8>) -> Result<(), Memory>
    ensures { OnOk result (text.new.items ≡ text.old.items ++ disabled_text name.now) }
{
    push_between(b"service ", name, b" disabled Unsupported\n", text)
}

// Appends a name between two texts.
#[tactic(auto, using(std::proofs::Common::append_assoc))]
fn push_between(before: &[u8], name: &[u8], after: &[u8], text: &mut Vec<u8>) -> Result<(), Memory>
    ensures { OnOk result (text.new.items ≡ text.old.items ++ between before.now name.now after.now) }
{
    text.extend_from_slice(before)?;
    text.extend_from_slice(name)?;
    text.extend_from_slice(after)
}
