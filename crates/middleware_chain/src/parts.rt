//! What each declared middleware is by itself.
ghost use Rattle.std.specs.Prelude.{◌≡◌, ◌≤◌, ◌-◌, true, false, map, IfOk};
ghost use Rattle.std.specs.List.{list_all};
ghost use Rattle.px_base.specs.Bytes.{Rose};
ghost use Rattle.dyn_config.specs.Joined.{is_qualified};
ghost use Rattle.middleware_chain.specs.Built.{RefusesEach};
ghost use Rattle.middleware_chain.specs.Parts.{AreParts, IsPart, IsStagePart, fault_of, is_of_pattern as is_pattern_fault, is_refused, node_of as node_of_part, used_by as used};
ghost use Rattle.middleware_stage.specs.Faults.{is_chain};

use crate::naming::members_of;
use crate::part::Part;
use dyn_config::{Entry, MiddlewareDef};
use middleware_graph::{MiddlewareFault, Node};
use middleware_stage::{BuiltStage, StageFault, build_stage, patterns_of};
use px_base::{List, Memory};
use rule_eval::PatternShop;
use std::alloc::Global;

// Each middleware by itself, in order. `left` patterns may be built, and so many are left then.
pub(crate) fn parts_of<S: PatternShop>(
    alloc: Global,
    entries: &[Entry<MiddlewareDef>],
    left: &mut u32,
    shop: &mut S,
) -> Result<List<Part>, Memory>
    requires { list_all is_qualified entries.now ≡ true }
    ensures parts { IfOk result (λ parts. AreParts entries.now left.old entries.now parts left.new) }
    ensures fewer { left.new ≤ left.old }
    ensures refused { IfOk result (RefusesEach (S.refusals shop.old) (S.refusals shop.new)) }
    ensures later { S.refusals shop.old ≤ S.refusals shop.new }
{
    let mut parts = List::new(alloc);
    for entry in entries {
        let part = part_of(alloc, entries, entry, left, shop)?;
        parts.push(part)?;
    }
    Ok(parts)
}

fn part_of<S: PatternShop>(
    alloc: Global,
    entries: &[Entry<MiddlewareDef>],
    entry: &Entry<MiddlewareDef>,
    left: &mut u32,
    shop: &mut S,
) -> Result<Part, Memory>
    requires { entry.now.provider ≤ 1 }
    ensures part { IfOk result (IsPart entries.now left.old entry.now) }
    ensures left { IfOk result (λ part. left.new ≡ left.old - used entry.now.def part) }
    ensures fewer { left.new ≤ left.old }
    ensures refused { IfOk result (λ part. is_refused part ≡ true → Rose (S.refusals shop.old) (S.refusals shop.new)) }
    ensures later { S.refusals shop.old ≤ S.refusals shop.new }
{
    let part = part_with(alloc, entries, entry, *left, shop)?;
    *left -= used_by(&entry.def, &part);
    Ok(part)
}

// One middleware by itself, where `left` patterns may be built.
fn part_with<S: PatternShop>(
    alloc: Global,
    entries: &[Entry<MiddlewareDef>],
    entry: &Entry<MiddlewareDef>,
    left: u32,
    shop: &mut S,
) -> Result<Part, Memory>
    requires { entry.now.provider ≤ 1 }
    ensures part { IfOk result (IsPart entries.now left entry.now) }
    ensures refused { IfOk result (λ part. is_refused part ≡ true → Rose (S.refusals shop.old) (S.refusals shop.new)) }
    ensures later { S.refusals shop.old ≤ S.refusals shop.new }
{
    match &entry.def {
        MiddlewareDef::Chain { names } => {
            let members = members_of(alloc, entries, entry.provider, names.as_slice())?;
            Ok(Part::Chain(members))
        }
        _ => stage_part(alloc, &entry.def, left, shop),
    }
}

// A middleware that is no chain.
fn stage_part<S: PatternShop>(
    alloc: Global,
    def: &MiddlewareDef,
    left: u32,
    shop: &mut S,
) -> Result<Part, Memory>
    requires { is_chain def.now ≡ false }
    ensures part { IfOk result (IsStagePart def.now left) }
    ensures refused { IfOk result (λ part. is_refused part ≡ true → Rose (S.refusals shop.old) (S.refusals shop.new)) }
    ensures later { S.refusals shop.old ≤ S.refusals shop.new }
{
    match build_stage(alloc, def, left, shop)? {
        BuiltStage::Stage(stage) => Ok(Part::Stage(stage)),
        BuiltStage::Fault(fault) => Ok(Part::Faulty(own_fault(fault))),
    }
}

fn own_fault(fault: StageFault) -> MiddlewareFault
    ensures { result ≡ fault_of fault }
{
    match fault {
        StageFault::Unsupported => MiddlewareFault::Unsupported,
        StageFault::Value => MiddlewareFault::Value,
        StageFault::TooManyPatterns => MiddlewareFault::TooManyPatterns,
        StageFault::Syntax => MiddlewareFault::Syntax,
        StageFault::TooBig => MiddlewareFault::TooBig,
    }
}

// How many patterns a middleware uses.
fn used_by(def: &MiddlewareDef, part: &Part) -> u32
    ensures { result ≡ used def.now part.now }
{
    match part {
        Part::Stage(_) => patterns_of(def),
        Part::Faulty(fault) => if is_of_pattern(*fault) {
            patterns_of(def)
        } else {
            0
        },
        Part::Chain(_) => 0,
    }
}

fn is_of_pattern(fault: MiddlewareFault) -> bool
    ensures { result ≡ is_pattern_fault fault }
{
    match fault {
        MiddlewareFault::Syntax => true,
        MiddlewareFault::TooBig => true,
        MiddlewareFault::Unsupported => false,
        MiddlewareFault::Value => false,
        MiddlewareFault::TooManyPatterns => false,
        MiddlewareFault::Missing => false,
        MiddlewareFault::Cycle => false,
        MiddlewareFault::Child => false,
        MiddlewareFault::TooDeep => false,
    }
}

// The middlewares as chains see them.
pub(crate) fn nodes_of(alloc: Global, parts: &[Part]) -> Result<List<Node>, Memory>
    ensures { IfOk result (λ nodes. nodes ≡ map node_of_part parts.now) }
{
    let mut nodes = List::new(alloc);
    for part in parts {
        nodes.push(node_of(alloc, part)?)?;
    }
    Ok(nodes)
}

fn node_of(alloc: Global, part: &Part) -> Result<Node, Memory>
    ensures { IfOk result (λ node. node ≡ node_of_part part.now) }
{
    match part {
        Part::Stage(_) => Ok(Node::Stage),
        Part::Faulty(fault) => Ok(Node::Faulty(*fault)),
        Part::Chain(members) => {
            let members = List::from_slice(alloc, members.as_slice())?;
            Ok(Node::Chain(members))
        }
    }
}
