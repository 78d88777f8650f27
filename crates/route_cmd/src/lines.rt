//! The line that `route` writes for a request.
ghost use Rattle.std.specs.Prelude.{◌≡◌, [], ◌∷◌, ℕ, List, length, IfOk, IfSome, slice_get, Some};
ghost use Rattle.rule_eval.specs.Truth.{Asked};
ghost use Rattle.router_table.specs.Winner.{IsWinner, WinnerIs};
ghost use Rattle.router_table.specs.declared.row.Row.{Row as RowAt};
ghost use Rattle.ip_net.specs.declared.ip.Ip.{Ip as Peer};
ghost use Rattle.http_wire.specs.declared.message.Request.{Request as Taken};
ghost use Rattle.middleware_chain.specs.Folds.{Through};
ghost use Rattle.runtime_config.specs.Runtime.{IsEnabledAt, IsRuntime, stages_of};
ghost use Rattle.route_cmd.specs.Services.{HaveOneServer};
ghost use Rattle.route_cmd.specs.Output.{Routed, IsServerOf, forward_text, stop_text};
ghost use Rattle.route_cmd.specs.Parts.{IsOfOne, IsOnly};

use http_wire::Request;
use ip_net::Ip;
use middleware_chain::Flow;
use px_base::{Memory, Server, print_decimal};
use runtime_config::RuntimeConfig;
use service_nodes::{Node, NodeKind};
use std::alloc::Global;

// The line for a request that the router in this row gets: where it would be forwarded or stopped, or `404` where there is none.
pub(crate) fn route_line(
    alloc: Global,
    config: &RuntimeConfig,
    winner: Option<u32>,
    request: Request,
    peer: Ip,
) -> Result<Vec<u8>, Memory>
    requires runtime { IsRuntime config.now.merged config.now }
    requires form { HaveOneServer config.now.merged }
    requires enabled { IfSome winner (IsEnabledAt config.now.table.rows) }
    ensures { IfOk result (λ text. (entry : List ℕ) (asked : Asked) → WinnerIs config.now.table.rows entry asked peer winner
        → Routed config.now.merged config.now.table.rows entry asked request peer text.items) }
{
    match winner {
        Some(number) => winner_line(alloc, config, number, request, peer),
        None => Vec::from_slice(alloc, b"404\n"),
    }
}

// The line for a request that the router in this row gets.
fn winner_line(
    alloc: Global,
    config: &RuntimeConfig,
    number: u32,
    request: Request,
    peer: Ip,
) -> Result<Vec<u8>, Memory>
    requires runtime { IsRuntime config.now.merged config.now }
    requires form { HaveOneServer config.now.merged }
    requires enabled { IsEnabledAt config.now.table.rows number }
    ensures { IfOk result (λ text. (entry : List ℕ) (asked : Asked) → IsWinner config.now.table.rows entry asked peer number
        → Routed config.now.merged config.now.table.rows entry asked request peer text.items) }
{
    let flow = config.apply(alloc, number, request, peer)?;
    flow_line(alloc, config, number, &flow)
}

// The line for what the middlewares of the router in this row made of a request.
fn flow_line(
    alloc: Global,
    config: &RuntimeConfig,
    number: u32,
    flow: &Flow,
) -> Result<Vec<u8>, Memory>
    requires runtime { IsRuntime config.now.merged config.now }
    requires form { HaveOneServer config.now.merged }
    requires enabled { IsEnabledAt config.now.table.rows number }
    ensures { IfOk result (λ text. (entry : List ℕ) (asked : Asked) (request : Taken) (peer : Peer) → IsWinner config.now.table.rows entry asked peer number
        → Through (stages_of config.now number) request peer flow.now → Routed config.now.merged config.now.table.rows entry asked request peer text.items) }
{
    let router = name_at(config, number);
    match flow {
        Flow::Stop { place, status, .. } => stop_line(alloc, router, *place, *status),
        Flow::Pass { .. } => forward_line(alloc, router, server_at(config, number)),
    }
}

// The name of the router in a row.
fn name_at(config: &RuntimeConfig, number: u32) -> &[u8]
    requires { IsEnabledAt config.now.table.rows number }
    ensures { (row : RowAt) → slice_get config.now.table.rows number ≡ Some row → result.now ≡ row.name }
{
    config.rows()[number as usize].name.as_slice()
}

// The one server of the service of the router in a row.
fn server_at(config: &RuntimeConfig, number: u32) -> &Server
    requires runtime { IsRuntime config.now.merged config.now }
    requires form { HaveOneServer config.now.merged }
    requires enabled { IsEnabledAt config.now.table.rows number }
    ensures { (row : RowAt) → slice_get config.now.table.rows number ≡ Some row → IsServerOf config.now.merged row result.now }
{
    match config.node(number) {
        Some(at) => only_server(at.node),
        None => unreachable!(),
    }
}

// The one server of a node.
fn only_server(node: &Node) -> &Server
    requires { IsOfOne node.now.kind }
    ensures { IsOnly node.now.kind result.now }
{
    match &node.kind {
        NodeKind::Balancer { servers, .. } => only_of(servers.as_slice()),
        NodeKind::Weighted { .. } => unreachable!(),
        NodeKind::Mirroring { .. } => unreachable!(),
        NodeKind::Failover { .. } => unreachable!(),
    }
}

fn only_of(servers: &[Server]) -> &Server
    requires { length servers.now ≡ 1 }
    ensures { servers.now ≡ result.now ∷ [] }
{
    &servers[0]
}

fn stop_line(alloc: Global, router: &[u8], place: u32, status: u16) -> Result<Vec<u8>, Memory>
    ensures { IfOk result (λ text. text.items ≡ stop_text router.now place status) }
{
    let mut text = Vec::from_slice(alloc, b"stop ")?;
    text.extend_from_slice(router)?;
    text.extend_from_slice(b" ")?;
    print_decimal(place as u64, &mut text)?;
    text.extend_from_slice(b" ")?;
    print_decimal(status as u64, &mut text)?;
    text.extend_from_slice(b"\n")?;
    Ok(text)
}

fn forward_line(alloc: Global, router: &[u8], server: &Server) -> Result<Vec<u8>, Memory>
    ensures { IfOk result (λ text. text.items ≡ forward_text router.now server.now.host server.now.port) }
{
    let mut text = Vec::from_slice(alloc, b"forward ")?;
    text.extend_from_slice(router)?;
    text.extend_from_slice(b" http://")?;
    text.extend_from_slice(server.host.as_slice())?;
    text.extend_from_slice(b":")?;
    print_decimal(server.port as u64, &mut text)?;
    text.extend_from_slice(b"\n")?;
    Ok(text)
}
