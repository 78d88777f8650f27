//! The row of a router: enabled, or disabled for the first reason against it.
ghost use Rattle.std.specs.Prelude.{◌≡◌, ◌≢◌, ◌≤◌, ℕ, true, false, None, IfOk, OnOk, IfErr};
ghost use Rattle.px_base.specs.Bytes.{Rose};
ghost use Rattle.rule_lang.specs.Trees.{Tree, tree_of};
ghost use Rattle.rule_eval.specs.Calls.{calls_of, pattern_count};
ghost use Rattle.rule_eval.specs.Faults.{AreSound};
ghost use Rattle.rule_eval.specs.Rules.{compiled_rule};
ghost use Rattle.rule_lang.specs.declared.read.RuleFault.TheVariants.{Memory as NoMemory};
ghost use Rattle.router_table.specs.Faults.{HasRule, IsRuleOf, IsTextFault, IsReadFault, IsPatternFault, IsCompiled};
ghost use Rattle.router_table.specs.Rows.{IsRow, IsState, Leaves, is_refused, refused_by, priority_of as ranked_priority};
ghost use Rattle.router_table.specs.Steps.{IfFault, IsRefusalOf, IsEnabled, IsReferenceFault, meant, left_after, is_too_big};

use crate::fault::{Refusal, RouterFault};
use crate::references::{chain_of, service_of};
use crate::row::{RouterState, Row, Search};
use crate::setting::Setting;
use dyn_config::{Entry, RouterDef};
use px_base::{Bytes, List, Memory};
use rule_eval::{CompileFault, Compiled, PatternShop, compile, patterns};
use rule_lang::{Rule, RuleFault, read_rule};
use std::alloc::{AllocError, Global};

/// The greatest priority that a router may have.
const MAX_PRIORITY: i64 = i64::MAX - 1000;

// The row of a router, where so many patterns are left to be built; those of its rule are taken off.
pub(crate) fn row_of<S: PatternShop>(
    alloc: Global,
    setting: &Setting<'_>,
    entry: &Entry<RouterDef>,
    left: &mut u32,
    shop: &mut S,
) -> Result<Row, Memory>
    requires provider { entry.now.provider ≤ 1 }
    requires few { left.old ≤ 256 }
    ensures row { IfOk result (IsRow (meant setting.now) left.old entry.now) }
    ensures left { OnOk result (Leaves left.old entry.now.def left.new) }
    ensures fewer { left.new ≤ left.old }
    ensures refused { IfOk result (λ row. is_refused row.state ≡ true → Rose (S.refusals shop.old) (S.refusals shop.new)) }
    ensures later { S.refusals shop.old ≤ S.refusals shop.new }
{
    let priority = priority_of(&entry.def)?;
    let name = Bytes::from_slice(alloc, entry.name.as_slice())?;
    let state = state_of(alloc, setting, entry, left, shop)?;
    Ok(Row {
        name,
        priority,
        state,
    })
}

// The router's own priority, or the length of its rule. No rule is so long that its length doesn't fit.
fn priority_of(def: &RouterDef) -> Result<i64, Memory>
    ensures { IfOk result (λ priority. priority ≡ ranked_priority def.now) }
{
    if def.priority != 0 {
        return Ok(def.priority);
    }
    match i64::try_from(def.rule.len()) {
        Ok(length) => Ok(length),
        Err(_) => Err(AllocError),
    }
}

fn state_of<S: PatternShop>(
    alloc: Global,
    setting: &Setting<'_>,
    entry: &Entry<RouterDef>,
    left: &mut u32,
    shop: &mut S,
) -> Result<RouterState, Memory>
    requires provider { entry.now.provider ≤ 1 }
    requires few { left.old ≤ 256 }
    ensures state { IfOk result (IsState (meant setting.now) left.old entry.now) }
    ensures left { OnOk result (Leaves left.old entry.now.def left.new) }
    ensures fewer { left.new ≤ left.old }
    ensures refused { IfOk result (λ state. is_refused state ≡ true → Rose (S.refusals shop.old) (S.refusals shop.new)) }
    ensures later { S.refusals shop.old ≤ S.refusals shop.new }
{
    match rule_of(alloc, &entry.def) {
        Ok(rule) => state_under(alloc, setting, entry, &rule, left, shop),
        Err(Refusal::Fault(fault)) => Ok(RouterState::Disabled(fault)),
        Err(Refusal::Memory) => Err(AllocError),
    }
}

// The router's rule, where it may have its options and its priority.
fn rule_of(alloc: Global, def: &RouterDef) -> Result<Rule, Refusal>
    ensures rule { IfOk result (λ rule. HasRule def.now (tree_of rule)) }
    ensures fault { IfErr result (IfFault (IsReadFault def.now)) }
    ensures none { IfErr result (IfFault (λ _. (rule : Tree) → ¬ (HasRule def.now rule))) }
{
    if def.tls {
        return Err(Refusal::Fault(RouterFault::Tls));
    }
    if def.unsupported {
        return Err(Refusal::Fault(RouterFault::Unsupported));
    }
    match read_text(alloc, def.rule.as_slice()) {
        Ok(rule) => if def.priority > MAX_PRIORITY {
            Err(Refusal::Fault(RouterFault::Priority))
        } else {
            Ok(rule)
        },
        Err(fault) => Err(refusal_of(fault)),
    }
}

// The rule that a text is. Bytes that are no UTF-8 have no token at their start.
fn read_text(alloc: Global, bytes: &[u8]) -> Result<Rule, RuleFault>
    ensures rule { IfOk result (λ rule. IsRuleOf bytes.now (tree_of rule)) }
    ensures fault { IfErr result (λ f. f ≢ NoMemory → IsTextFault bytes.now f) }
{
    match std::str::from_utf8(bytes) {
        Ok(text) => read_rule(alloc, text),
        Err(_) => Err(RuleFault::Lex { at: 0 }),
    }
}

fn refusal_of(fault: RuleFault) -> Refusal
    ensures { IsRefusalOf fault result }
{
    if matches!(fault, RuleFault::Memory) {
        Refusal::Memory
    } else {
        Refusal::Fault(RouterFault::Rule(fault))
    }
}

// The state of a router that has this rule.
fn state_under<S: PatternShop>(
    alloc: Global,
    setting: &Setting<'_>,
    entry: &Entry<RouterDef>,
    rule: &Rule,
    left: &mut u32,
    shop: &mut S,
) -> Result<RouterState, Memory>
    requires provider { entry.now.provider ≤ 1 }
    requires few { left.old ≤ 256 }
    requires rule { HasRule entry.now.def (tree_of rule.now) }
    ensures state { IfOk result (IsState (meant setting.now) left.old entry.now) }
    ensures left { OnOk result (Leaves left.old entry.now.def left.new) }
    ensures fewer { left.new ≤ left.old }
    ensures refused { IfOk result (λ state. is_refused state ≡ true → Rose (S.refusals shop.old) (S.refusals shop.new)) }
    ensures later { S.refusals shop.old ≤ S.refusals shop.new }
{
    match compiled_of(alloc, rule, left, shop) {
        Ok(compiled) => state_with(alloc, setting, entry, compiled),
        Err(Refusal::Fault(fault)) => Ok(RouterState::Disabled(fault)),
        Err(Refusal::Memory) => Err(AllocError),
    }
}

// The rule compiled, where its patterns are no more than are left. They are taken off also where it isn't compiled.
fn compiled_of<S: PatternShop>(
    alloc: Global,
    rule: &Rule,
    left: &mut u32,
    shop: &mut S,
) -> Result<Compiled, Refusal>
    requires { left.old ≤ 256 }
    ensures rule { IfOk result (λ compiled. compiled_rule compiled ≡ tree_of rule.now) }
    ensures sound { OnOk result (AreSound (calls_of (tree_of rule.now))) }
    ensures fits { OnOk result (pattern_count (tree_of rule.now) ≤ left.old) }
    ensures fault { IfErr result (IfFault (λ f. IsPatternFault left.old (refused_by f) (tree_of rule.now) f)) }
    ensures left { left.new ≡ left_after left.old (tree_of rule.now) }
    ensures refused { IfErr result (IfFault (λ f. is_too_big f ≡ true → Rose (S.refusals shop.old) (S.refusals shop.new))) }
    ensures later { S.refusals shop.old ≤ S.refusals shop.new }
{
    let count = patterns(rule);
    if count > *left {
        return Err(Refusal::Fault(RouterFault::TooManyPatterns));
    }
    *left -= count;
    match compile(alloc, rule, shop) {
        Ok(compiled) => Ok(compiled),
        Err(CompileFault::Address { leaf }) => Err(disabled(CompileFault::Address { leaf })),
        Err(CompileFault::Syntax { leaf }) => Err(disabled(CompileFault::Syntax { leaf })),
        Err(CompileFault::TooBig { leaf }) => Err(disabled(CompileFault::TooBig { leaf })),
        Err(CompileFault::Memory) => Err(Refusal::Memory),
    }
}

fn disabled(fault: CompileFault) -> Refusal
    ensures { result ≡ Refusal.Fault (RouterFault.Compile fault) }
{
    Refusal::Fault(RouterFault::Compile(fault))
}

// The state of a router whose rule is compiled.
fn state_with(
    alloc: Global,
    setting: &Setting<'_>,
    entry: &Entry<RouterDef>,
    rule: Compiled,
) -> Result<RouterState, Memory>
    requires { entry.now.provider ≤ 1 }
    ensures state { IfOk result (λ state. (left : ℕ) → IsCompiled left None entry.now.def (compiled_rule rule) → IsState (meant setting.now) left entry.now state) }
    ensures kept { IfOk result (λ state. is_refused state ≡ false) }
{
    match enabled(alloc, setting, entry, rule) {
        Ok(state) => Ok(state),
        Err(Refusal::Fault(fault)) => Ok(RouterState::Disabled(fault)),
        Err(Refusal::Memory) => Err(AllocError),
    }
}

fn enabled(
    alloc: Global,
    setting: &Setting<'_>,
    entry: &Entry<RouterDef>,
    rule: Compiled,
) -> Result<RouterState, Refusal>
    requires { entry.now.provider ≤ 1 }
    ensures state { IfOk result (IsEnabled (meant setting.now) entry.now (compiled_rule rule)) }
    ensures fault { IfErr result (IfFault (IsReferenceFault (meant setting.now) entry.now)) }
{
    let service = service_of(alloc, setting, entry)?;
    let chain = chain_of(alloc, setting, entry)?;
    let entry_points = copies_of(alloc, entry.def.entry_points.as_slice())?;
    let search = Search { entry_points, rule };
    Ok(RouterState::Enabled {
        service,
        chain,
        search,
    })
}

fn copies_of(alloc: Global, texts: &[Bytes]) -> Result<List<Bytes>, Memory>
    ensures { IfOk result (λ copies. copies ≡ texts.now) }
{
    let mut copies = List::new(alloc);
    for text in texts {
        copies.push(Bytes::from_slice(alloc, text.as_slice())?)?;
    }
    Ok(copies)
}
