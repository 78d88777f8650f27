//! The services that can be used, as the nodes at which a server is looked for.
ghost use Rattle.std.specs.Prelude.{◌≡◌, false, All, IfOk, OnOk, MatchOption, filter, map};
ghost use Rattle.router_table.specs.Settings.{is_listed};
ghost use Rattle.service_graph.specs.Only.{HasOnly};
ghost use Rattle.generation.specs.Nodes.{IsAdded, IsNode, AreNodes, is_usable, is_usable_def, name_of, passes_host as host_passes};
ghost use Rattle.generation.specs.Meaning.{aim_of, aim_named};

use dyn_config::{Entry, ServiceDef};
use px_base::{Bytes, List, Memory};
use service_graph::only_server;
use std::alloc::{AllocError, Global};

/// Where a router's requests go: the one server of a balancer.
#[derive(Debug, Drop)]
pub struct Target {
    /// The place of the balancer among the services that can be used, by name.
    pub node: u32,
    /// The server's host, as it is written.
    pub host: Bytes,
    pub port: u16,
    /// Whether the client's host text is passed on.
    pub pass_host: bool,
}

/// A service that can be used.
#[derive(Debug, Drop)]
pub struct Node {
    /// Its qualified name.
    pub name: Bytes,
    pub target: Target,
}

// The nodes of the services that can be used, in their order.
pub(crate) fn read_nodes(
    alloc: Global,
    services: &[Entry<ServiceDef>],
) -> Result<List<Node>, Memory>
    requires { All HasOnly services.now }
    ensures { IfOk result (AreNodes 0 (filter is_usable services.now)) }
{
    let mut nodes = List::new(alloc);
    for service in services {
        add_node(alloc, service, &mut nodes)?;
    }
    Ok(nodes)
}

// Adds the node of a service where it can be used.
fn add_node(
    alloc: Global,
    service: &Entry<ServiceDef>,
    nodes: &mut List<Node>,
) -> Result<(), Memory>
    requires { HasOnly service.now }
    ensures { OnOk result (IsAdded service.now nodes.old nodes.new) }
{
    if !is_usable(&service.def) {
        return Ok(());
    }
    let Ok(place) = u32::try_from(nodes.len()) else {
        return Err(AllocError);
    };
    let node = node_of(alloc, place, service)?;
    nodes.push(node)
}

fn node_of(alloc: Global, place: u32, service: &Entry<ServiceDef>) -> Result<Node, Memory>
    requires { HasOnly service.now }
    ensures { IfOk result (IsNode place service.now) }
{
    match only_server(alloc, &service.def)? {
        Some(server) => {
            let name = Bytes::from_slice(alloc, service.name.as_slice())?;
            Ok(Node {
                name,
                target: Target {
                    node: place,
                    host: server.host,
                    port: server.port,
                    pass_host: passes_host(&service.def),
                },
            })
        }
        None => unreachable!(),
    }
}

// Whether no option of a balancer asks for what is not supported.
fn is_usable(def: &ServiceDef) -> bool
    ensures { result ≡ is_usable_def def.now }
{
    match def {
        ServiceDef::Balancer(balancer) => !balancer.unsupported,
        ServiceDef::Weighted(_) => false,
        ServiceDef::Mirroring(_) => false,
        ServiceDef::Failover(_) => false,
        ServiceDef::Unsupported => false,
    }
}

fn passes_host(def: &ServiceDef) -> bool
    ensures { result ≡ host_passes def.now }
{
    match def {
        ServiceDef::Balancer(balancer) => balancer.pass_host,
        ServiceDef::Weighted(_) => false,
        ServiceDef::Mirroring(_) => false,
        ServiceDef::Failover(_) => false,
        ServiceDef::Unsupported => false,
    }
}

// Where the first node with this name leads.
pub(crate) fn target_of<'a>(nodes: &'a [Node], name: &[u8]) -> Option<&'a Target>
    ensures { MatchOption result
        (is_listed (map name_of nodes.now) name.now ≡ false)
        (λ target. aim_named nodes.now name.now ≡ aim_of target.now) }
{
    for node in nodes {
        if node.name.as_slice() == name {
            return Some(&node.target);
        }
    }
    None
}
