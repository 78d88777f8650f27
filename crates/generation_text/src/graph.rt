//! The lines of services, by the graph that they make.
ghost use Rattle.std.specs.Prelude.{◌≡◌, ◌++◌, OnOk, Some};
ghost use Rattle.generation_text.specs.Services.{address_text, disabled_line, fault_name as fault_name_of, fault_of, found_lines, kind_name as kind_name_of, kind_lines, node_lines, numbered_lines, place_text, server_line, server_lines, service_lines, services_lines, sound_line, fault_lines};

use dyn_config::{Entry, ServiceDef};
use px_base::{Bytes, Memory, Server, print_decimal};
use service_faults::ServiceFault;
use service_nodes::{Graph, Node, NodeKind, node_of};

/// Appends the lines of services by name: `service <name> <kind> node <i>`, a balancer's followed by `server <node> <place> <host>:<port>
/// weight <w>` for each of its servers, or `service <name> disabled <reason>`. Where memory runs out, a part of them may stand there.
pub(crate) fn push_services(
    services: &[Entry<ServiceDef>],
    graph: &Graph,
    text: &mut Vec<u8>,
) -> Result<(), Memory>
    ensures { OnOk result (text.new.items ≡ text.old.items ++ services_lines graph.now services.now) }
{
    for service in services {
        push_service(service.name.as_slice(), graph, text)?;
    }
    Ok(())
}

fn push_service(name: &[u8], graph: &Graph, text: &mut Vec<u8>) -> Result<(), Memory>
    ensures { OnOk result (text.new.items ≡ text.old.items ++ service_lines graph.now name.now) }
{
    match node_of(graph, name) {
        Some(number) => push_numbered(graph.nodes.as_slice(), number, text),
        None => push_fault(name, fault_named(graph.faults.as_slice(), name), text),
    }
}

fn push_numbered(nodes: &[Node], number: u32, text: &mut Vec<u8>) -> Result<(), Memory>
    ensures { OnOk result (text.new.items ≡ text.old.items ++ numbered_lines nodes.now number) }
{
    match nodes.get(number as usize) {
        Some(node) => push_node(number, node, text),
        None => Ok(()),
    }
}

fn push_node(number: u32, node: &Node, text: &mut Vec<u8>) -> Result<(), Memory>
    ensures { OnOk result (text.new.items ≡ text.old.items ++ node_lines number node.now) }
{
    push_sound(number, node, text)?;
    push_kind(number, &node.kind, text)
}

fn push_sound(number: u32, node: &Node, text: &mut Vec<u8>) -> Result<(), Memory>
    ensures { OnOk result (text.new.items ≡ text.old.items ++ sound_line number node.now) }
{
    text.extend_from_slice(b"service ")?;
    text.extend_from_slice(node.name.as_slice())?;
    text.extend_from_slice(b" ")?;
    text.extend_from_slice(kind_name(&node.kind))?;
    text.extend_from_slice(b" node ")?;
    print_decimal(number as u64, text)?;
    text.extend_from_slice(b"\n")
}

fn kind_name(kind: &NodeKind) -> &'static [u8]
    ensures { result.now ≡ kind_name_of kind.now }
{
    match kind {
        NodeKind::Balancer { .. } => b"balancer",
        NodeKind::Weighted { .. } => b"weighted",
        NodeKind::Mirroring { .. } => b"mirroring",
        NodeKind::Failover { .. } => b"failover",
    }
}

fn push_kind(number: u32, kind: &NodeKind, text: &mut Vec<u8>) -> Result<(), Memory>
    ensures { OnOk result (text.new.items ≡ text.old.items ++ kind_lines number kind.now) }
{
    match kind {
        NodeKind::Balancer { servers, .. } => push_servers(number, servers.as_slice(), text),
        NodeKind::Weighted { .. } => Ok(()),
        NodeKind::Mirroring { .. } => Ok(()),
        NodeKind::Failover { .. } => Ok(()),
    }
}

fn push_servers(number: u32, servers: &[Server], text: &mut Vec<u8>) -> Result<(), Memory>
    ensures { OnOk result (text.new.items ≡ text.old.items ++ server_lines number 0 servers.now) }
{
    for (place, server) in servers.iter().enumerate() {
        push_server(number, place as u64, server, text)?;
    }
    Ok(())
}

fn push_server(number: u32, place: u64, server: &Server, text: &mut Vec<u8>) -> Result<(), Memory>
    ensures { OnOk result (text.new.items ≡ text.old.items ++ server_line number place server.now) }
{
    push_place(number, place, text)?;
    push_address(server, text)
}

fn push_place(number: u32, place: u64, text: &mut Vec<u8>) -> Result<(), Memory>
    ensures { OnOk result (text.new.items ≡ text.old.items ++ place_text number place) }
{
    text.extend_from_slice(b"server ")?;
    print_decimal(number as u64, text)?;
    text.extend_from_slice(b" ")?;
    print_decimal(place, text)?;
    text.extend_from_slice(b" ")
}

fn push_address(server: &Server, text: &mut Vec<u8>) -> Result<(), Memory>
    ensures { OnOk result (text.new.items ≡ text.old.items ++ address_text server.now) }
{
    text.extend_from_slice(server.host.as_slice())?;
    text.extend_from_slice(b":")?;
    print_decimal(server.port as u64, text)?;
    text.extend_from_slice(b" weight ")?;
    print_decimal(server.weight as u64, text)?;
    text.extend_from_slice(b"\n")
}

// The reason against the service with this name.
fn fault_named(faults: &[(Bytes, ServiceFault)], name: &[u8]) -> Option<ServiceFault>
    ensures { result ≡ fault_of faults.now name.now }
{
    for disabled in faults {
        if disabled.0.as_slice() == name {
            return Some(disabled.1);
        }
    }
    None
}

fn push_fault(name: &[u8], fault: Option<ServiceFault>, text: &mut Vec<u8>) -> Result<(), Memory>
    ensures { OnOk result (text.new.items ≡ text.old.items ++ fault_lines name.now fault) }
{
    match fault {
        Some(fault) => push_disabled(name, fault, text),
        None => Ok(()),
    }
}

fn push_disabled(name: &[u8], fault: ServiceFault, text: &mut Vec<u8>) -> Result<(), Memory>
    ensures { OnOk result (text.new.items ≡ text.old.items ++ disabled_line name.now fault) }
{
    text.extend_from_slice(b"service ")?;
    text.extend_from_slice(name)?;
    text.extend_from_slice(b" disabled ")?;
    text.extend_from_slice(fault_name(fault))?;
    text.extend_from_slice(b"\n")
}

fn fault_name(fault: ServiceFault) -> &'static [u8]
    ensures { result.now ≡ fault_name_of fault }
{
    match fault {
        ServiceFault::Unsupported => b"Unsupported",
        ServiceFault::TooManyChildren => b"TooManyChildren",
        ServiceFault::Scheme => b"Scheme",
        ServiceFault::BadUrl => b"BadUrl",
        ServiceFault::WeightsTooLarge => b"WeightsTooLarge",
        ServiceFault::Missing => b"Missing",
        ServiceFault::Cycle => b"Cycle",
        ServiceFault::Child => b"Child",
        ServiceFault::TooDeep => b"TooDeep",
    }
}
