//! The judgement of a configuration's services.
ghost use Rattle.std.specs.Prelude.{◌≡◌, ◌++◌, ◌<◌, ℕ, true, length, map, is_some, IfOk, OnOk};
ghost use Rattle.std.specs.List.{list_all};
ghost use Rattle.reference_graph.specs.Heights.{AreHeights, IsJudged};
ghost use Rattle.service_faults.specs.References.{is_entry, links_of as all_links};
ghost use Rattle.service_faults.specs.Faults.{AreJudged, State, faults_at, faults_from};
ghost use Rattle.service_faults.specs.Blocked.{judgement};
ghost use Rattle.service_faults.specs.Judgements.{IsJudgement};

use crate::fault::ServiceFault;
use crate::judgement::Judgement;
use crate::judging::{all_blocked, flags_of, judge};
use crate::places::links_of;
use dyn_config::{Entry, Merged, ServiceDef};
use px_base::{Bytes, List, Memory};
use reference_graph::{Height, heights_of};
use std::alloc::Global;

/// The disabled services by name, each with the first reason against it.
pub fn service_faults(alloc: Global, merged: &Merged) -> Result<List<(Bytes, ServiceFault)>, Memory>
    ensures { IfOk result (λ faults. (judged : ℕ → State) × AreJudged merged.now.services judged × (faults ≡ faults_from judged 0 merged.now.services)) }
{
    let Judgement { faults, .. } = judge_services(alloc, merged)?;
    Ok(faults)
}

/// Judges the services: where their references lead, how high the trees of the sound ones are, and why the others are disabled.
pub fn judge_services(alloc: Global, merged: &Merged) -> Result<Judgement, Memory>
    ensures { IfOk result (IsJudgement merged.now.services) }
{
    let services = merged.services.as_slice();
    let links = links_of(alloc, services)?;
    judge_linked(alloc, services, links)
}

fn judge_linked(
    alloc: Global,
    services: &[Entry<ServiceDef>],
    links: Vec<List<Option<usize>>>,
) -> Result<Judgement, Memory>
    requires in_range { list_all is_entry services.now ≡ true }
    requires links { links.items ≡ all_links services.now }
    ensures { IfOk result (IsJudgement services.now) }
{
    let places = links.as_slice();
    let found = all_blocked(alloc, places, services)?;
    let blocked = found.as_slice();
    let heights = sound_heights(alloc, places, blocked)?;
    let faults = list_faults(alloc, services, places, heights.as_slice(), blocked)?;
    Ok(Judgement {
        links,
        heights,
        faults,
    })
}

// The heights of the sound services, where this stands against each before the services that it refers to are judged.
fn sound_heights(
    alloc: Global,
    links: &[List<Option<usize>>],
    blocked: &[Option<ServiceFault>],
) -> Result<Vec<Option<Height>>, Memory>
    requires { length blocked.now ≡ length links.now }
    ensures long { IfOk result (λ heights. length heights.items ≡ length links.now) }
    ensures heights { IfOk result (λ heights. AreHeights links.now (map is_some blocked.now) heights.items) }
    ensures judged { IfOk result (λ heights. (at : ℕ) → at < length links.now → IsJudged links.now (map is_some blocked.now) heights.items at) }
{
    let flags = flags_of(alloc, blocked)?;
    heights_of(alloc, links, flags.as_slice())
}

fn list_faults(
    alloc: Global,
    services: &[Entry<ServiceDef>],
    links: &[List<Option<usize>>],
    heights: &[Option<Height>],
    blocked: &[Option<ServiceFault>],
) -> Result<List<(Bytes, ServiceFault)>, Memory>
    requires links { length links.now ≡ length services.now }
    requires blocked { length blocked.now ≡ length services.now }
    ensures { IfOk result (λ faults. faults ≡ faults_from (judgement links.now heights.now blocked.now) 0 services.now) }
{
    let mut faults = List::new(alloc);
    for (at, service) in services.iter().enumerate() {
        let fault = fault_at(links, heights, blocked, at);
        add_fault(alloc, service.name.as_slice(), fault, &mut faults)?;
    }
    Ok(faults)
}

fn fault_at(
    links: &[List<Option<usize>>],
    heights: &[Option<Height>],
    blocked: &[Option<ServiceFault>],
    at: usize,
) -> Option<ServiceFault>
    requires links { at < length links.now }
    requires blocked { at < length blocked.now }
    ensures { result ≡ judgement links.now heights.now blocked.now at }
{
    judge(links, heights, blocked[at], at)
}

fn add_fault(
    alloc: Global,
    name: &[u8],
    fault: Option<ServiceFault>,
    faults: &mut List<(Bytes, ServiceFault)>,
) -> Result<(), Memory>
    ensures { OnOk result (faults.new ≡ faults.old ++ faults_at name.now fault) }
{
    match fault {
        Some(fault) => {
            let name = Bytes::from_slice(alloc, name)?;
            faults.push((name, fault))
        }
        None => Ok(()),
    }
}
