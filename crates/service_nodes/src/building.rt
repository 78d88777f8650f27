//! How a graph is built.
ghost use Rattle.std.specs.Prelude.{◌≡◌, ◌<◌, ◌^◌, true, length, All, IfOk};
ghost use Rattle.std.specs.List.{list_all, AllZip};
ghost use Rattle.reference_graph.specs.Numbering.{number_in};
ghost use Rattle.service_faults.specs.Faults.{IsPlain};
ghost use Rattle.service_faults.specs.Judgements.{IsJudgement};
ghost use Rattle.service_faults.specs.References.{is_entry, links_of, written};
ghost use Rattle.service_nodes.specs.Nodes.{IsNodeAt, IsNodeOf};
ghost use Rattle.service_nodes.specs.Ready.{AreNumbered, HasNumber, IsReady};
ghost use Rattle.service_nodes.specs.Graphs.{IsGraph};

use crate::graph::Graph;
use crate::kinds::kind_of;
use crate::node::Node;
use dyn_config::{Entry, Merged, ServiceDef};
use px_base::{Bytes, List, Memory};
use reference_graph::{Numbering, number_all, places_at};
use service_faults::{Judgement, judge_services};
use std::alloc::Global;

/// The services of a configuration as a graph: the sound ones are numbered from 0, each after those that it refers to.
pub fn build_graph(alloc: Global, merged: &Merged) -> Result<Graph, Memory>
    requires { length merged.now.services < 2 ^ 32 }
    ensures { IfOk result (IsGraph merged.now.services) }
{
    let judgement = judge_services(alloc, merged)?;
    graph_of(alloc, merged.services.as_slice(), judgement)
}

fn graph_of(
    alloc: Global,
    services: &[Entry<ServiceDef>],
    judgement: Judgement,
) -> Result<Graph, Memory>
    requires in_range { list_all is_entry services.now ≡ true }
    requires few { length services.now < 2 ^ 32 }
    requires judged { IsJudgement services.now judgement }
    ensures { IfOk result (IsGraph services.now) }
{
    let links = judgement.links.as_slice();
    let heights = judgement.heights.as_slice();
    let numbering = number_all(alloc, links, heights)?;
    graph_numbered(alloc, services, judgement, &numbering)
}

fn graph_numbered(
    alloc: Global,
    services: &[Entry<ServiceDef>],
    judgement: Judgement,
    numbering: &Numbering,
) -> Result<Graph, Memory>
    requires in_range { list_all is_entry services.now ≡ true }
    requires few { length services.now < 2 ^ 32 }
    requires judged { IsJudgement services.now judgement }
    requires numbered { AreNumbered services.now judgement numbering.now.order.items numbering.now.numbers.items }
    ensures { IfOk result (IsGraph services.now) }
{
    let Judgement { links, faults, .. } = judgement;
    let places = links.as_slice();
    let order = numbering.order.as_slice();
    let numbers = numbering.numbers.as_slice();
    let nodes = nodes_of(alloc, services, places, order, numbers)?;
    Ok(Graph { nodes, faults })
}

// The nodes of the services at these places.
fn nodes_of(
    alloc: Global,
    services: &[Entry<ServiceDef>],
    links: &[List<Option<usize>>],
    order: &[usize],
    numbers: &[Option<usize>],
) -> Result<List<Node>, Memory>
    requires links { links.now ≡ links_of services.now }
    requires ready { All (IsReady services.now numbers.now) order.now }
    ensures { IfOk result (λ nodes. AllZip (IsNodeAt services.now (number_in numbers.now)) order.now nodes) }
{
    let mut nodes = List::new(alloc);
    for at in order {
        let node = node_at(alloc, services, links, *at, numbers)?;
        nodes.push(node)?;
    }
    Ok(nodes)
}

fn node_at(
    alloc: Global,
    services: &[Entry<ServiceDef>],
    links: &[List<Option<usize>>],
    at: usize,
    numbers: &[Option<usize>],
) -> Result<Node, Memory>
    requires links { links.now ≡ links_of services.now }
    requires ready { IsReady services.now numbers.now at }
    ensures { IfOk result (IsNodeAt services.now (number_in numbers.now) at) }
{
    let places = places_at(links, at);
    node_from(alloc, &services[at], places, numbers)
}

// The node of a service whose references lead to these places.
fn node_from(
    alloc: Global,
    service: &Entry<ServiceDef>,
    places: &[Option<usize>],
    numbers: &[Option<usize>],
) -> Result<Node, Memory>
    requires plain { IsPlain service.now }
    requires long { length places.now ≡ length (written service.now.def) }
    requires leads { All (HasNumber numbers.now) places.now }
    ensures { IfOk result (IsNodeOf (number_in numbers.now) places.now service.now) }
{
    let kind = kind_of(alloc, &service.def, places, numbers)?;
    let name = Bytes::from_slice(alloc, service.name.as_slice())?;
    Ok(Node { name, kind })
}
