//! A rule made ready to be asked: its patterns built, its networks read.
ghost use Rattle.std.specs.Prelude.{◌≡◌, ◌+◌, ◌-◌, ◌^◌, ◌≤◌, ℕ, List, ◌++◌, min, length, true, IfOk, OnOk, IfErr, MatchResult};
ghost use Rattle.std.specs.Str.{str_to_ascii_uppercase};
ghost use Rattle.rule_lang.specs.Trees.{tree_of, call};
ghost use Rattle.rule_eval.specs.Calls.{Call, calls_of, has_pattern as has_pattern_by};
ghost use Rattle.rule_eval.specs.Words.{has_words};
ghost use Rattle.rule_eval.specs.Checks.{probe_call, rule_of};
ghost use Rattle.rule_eval.specs.Rules.{compiled_rule};
ghost use Rattle.rule_eval.specs.Patterns.{IsPatternText};
ghost use Rattle.rule_eval.specs.Faults.{IsNetwork, IsSound, AreSound, number_after, Tells, call_of, Blames, BlamesText, BlamesAddress};
ghost use Rattle.rule_eval.specs.Views.{pattern_text};

use crate::building::PatternFault;
use crate::check::{Check, Order};
use crate::compiled::{Compiled, is_plain};
use crate::counting::has_pattern;
use crate::method::UpperMethod;
use crate::network::Network;
use crate::pattern::Pattern;
use crate::probe::{Probe, Search, Words};
use crate::shop::PatternShop;
use ip_net::read_net;
use px_base::{Bytes, Memory};
use rule_lang::{Leaf, Matcher, Rule};
use sqlite_items::Boxed;
use std::alloc::Global;

/// Why a rule isn't compiled. A call is told by its number from the left, from 0.
#[derive(Clone, Copy, Debug, PartialEq, Eq)]
pub enum CompileFault {
    /// A `ClientIP` whose text is no network.
    Address { leaf: u32 },
    /// A pattern that the grammar of `regex` doesn't read.
    Syntax { leaf: u32 },
    /// A pattern that the shop refused for its size.
    TooBig { leaf: u32 },
    Memory,
}

/// Compiles a rule: its patterns are built by the shop, from the left. The fault is that of the first call from the left that has
/// one: before it the shop refused none.
pub fn compile<S: PatternShop>(
    alloc: Global,
    rule: &Rule,
    shop: &mut S,
) -> Result<Compiled, CompileFault>
    ensures rule { IfOk result (λ c. compiled_rule c ≡ tree_of rule.now) }
    ensures sound { OnOk result (AreSound (calls_of (tree_of rule.now))) }
    ensures fault { IfErr result (Tells (calls_of (tree_of rule.now)) (S.refusals shop.old) (S.refusals shop.new)) }
    ensures still { OnOk result (S.refusals shop.new ≡ S.refusals shop.old) }
    ensures later { S.refusals shop.old ≤ S.refusals shop.new }
{
    let mut next = 0;
    let check = compile_part(alloc, rule, &mut next, shop)?;
    Ok(Compiled { check })
}

// Compiles a part of a rule, whose first call has the number `next`.
fn compile_part<S: PatternShop>(
    alloc: Global,
    rule: &Rule,
    next: &mut u32,
    shop: &mut S,
) -> Result<Boxed<Check>, CompileFault>
    ensures rule { IfOk result (λ c. rule_of c ≡ tree_of rule.now) }
    ensures sound { OnOk result (AreSound (calls_of (tree_of rule.now))) }
    ensures next { OnOk result (next.new ≡ min (next.old + length (calls_of (tree_of rule.now))) (2 ^ 32 - 1)) }
    // Whatever calls stand to its left.
    ensures fault { IfErr result (λ f. (left : List Call) → AreSound left → next.old ≡ number_after left
        → Tells (left ++ calls_of (tree_of rule.now)) (S.refusals shop.old) (S.refusals shop.new) f) }
    ensures still { OnOk result (S.refusals shop.new ≡ S.refusals shop.old) }
    ensures later { S.refusals shop.old ≤ S.refusals shop.new }
{
    match rule {
        Rule::Leaf(leaf) => {
            let probe = compile_call(alloc, leaf, *next, shop)?;
            *next = next.saturating_add(1);
            boxed(alloc, Check::Leaf(probe))
        }
        Rule::Not(inner) => {
            let inner = compile_part(alloc, inner.get(), next, shop)?;
            boxed(alloc, Check::Not(inner))
        }
        Rule::And(left, right) => {
            let left = compile_part(alloc, left.get(), next, shop)?;
            let right = compile_part(alloc, right.get(), next, shop)?;
            let order = order_of(left.get(), right.get());
            boxed(alloc, Check::And(order, left, right))
        }
        Rule::Or(left, right) => {
            let left = compile_part(alloc, left.get(), next, shop)?;
            let right = compile_part(alloc, right.get(), next, shop)?;
            let order = order_of(left.get(), right.get());
            boxed(alloc, Check::Or(order, left, right))
        }
    }
}

// The right operand is asked first where it alone is plain: it may spare the other, which takes memory
// and time.
fn order_of(left: &Check, right: &Check) -> Order {
    if is_plain(right) && !is_plain(left) {
        Order::RightFirst
    } else {
        Order::LeftFirst
    }
}

fn boxed(alloc: Global, check: Check) -> Result<Boxed<Check>, CompileFault>
    ensures { MatchResult result (λ b. b ≡ check) (λ f. f ≡ CompileFault.Memory) }
{
    match Boxed::new(alloc, check) {
        Ok(boxed) => Ok(boxed),
        Err(_) => Err(CompileFault::Memory),
    }
}

// Compiles the call with the number `at`.
fn compile_call<S: PatternShop>(
    alloc: Global,
    leaf: &Leaf,
    at: u32,
    shop: &mut S,
) -> Result<Probe, CompileFault>
    ensures call { IfOk result (λ p. probe_call p ≡ call leaf.now.matcher leaf.now.key leaf.now.value) }
    ensures sound { OnOk result (IsSound (call_of leaf.now)) }
    ensures fault { IfErr result (Blames (call_of leaf.now) at (S.refusals shop.old) (S.refusals shop.new)) }
    ensures still { OnOk result (S.refusals shop.new ≡ S.refusals shop.old) }
    ensures later { S.refusals shop.old ≤ S.refusals shop.new }
{
    if has_pattern(leaf.matcher) {
        let search = search_of(alloc, leaf, at, shop)?;
        return Ok(search_probe(leaf.matcher, search));
    }
    match leaf.matcher {
        Matcher::Method => Ok(Probe::Method(method_of(alloc, leaf)?)),
        Matcher::ClientIp => Ok(Probe::ClientIp(network_of(alloc, leaf, at)?)),
        _ => Ok(words_probe(leaf.matcher, words_of(alloc, leaf)?)),
    }
}

// The call of a matcher with a pattern.
fn search_probe(matcher: Matcher, search: Search) -> Probe
    requires { has_pattern_by matcher ≡ true }
    ensures { probe_call result ≡ call matcher search.key (pattern_text search.pattern) }
{
    match matcher {
        Matcher::HeaderRegexp => Probe::HeaderRegexp(search),
        Matcher::HostRegexp => Probe::HostRegexp(search),
        Matcher::PathRegexp => Probe::PathRegexp(search),
        _ => Probe::QueryRegexp(search),
    }
}

// The call of a matcher that takes its words as they are.
fn words_probe(matcher: Matcher, words: Words) -> Probe
    requires { has_words matcher ≡ true }
    ensures { probe_call result ≡ call matcher words.key words.value }
{
    match matcher {
        Matcher::Header => Probe::Header(words),
        Matcher::Host => Probe::Host(words),
        Matcher::Path => Probe::Path(words),
        Matcher::PathPrefix => Probe::PathPrefix(words),
        _ => Probe::Query(words),
    }
}

fn words_of(alloc: Global, leaf: &Leaf) -> Result<Words, CompileFault>
    ensures { MatchResult result (λ w. (w.key ≡ leaf.now.key) × (w.value ≡ leaf.now.value)) (λ f. f ≡ CompileFault.Memory) }
{
    let key = copied(alloc, &leaf.key)?;
    let value = copied(alloc, &leaf.value)?;
    Ok(Words { key, value })
}

fn method_of(alloc: Global, leaf: &Leaf) -> Result<UpperMethod, CompileFault>
    ensures { MatchResult result (λ m. (m.key ≡ leaf.now.key) × (m.value ≡ leaf.now.value)) (λ f. f ≡ CompileFault.Memory) }
{
    let key = copied(alloc, &leaf.key)?;
    let value = copied(alloc, &leaf.value)?;
    let upper = upper_case(alloc, leaf.value.as_slice())?;
    Ok(UpperMethod { key, value, upper })
}

fn upper_case(alloc: Global, text: &[u8]) -> Result<Bytes, CompileFault>
    ensures { MatchResult result (λ b. b ≡ str_to_ascii_uppercase text.now) (λ f. f ≡ CompileFault.Memory) }
{
    match text
        .iter()
        .map(|byte| byte.to_ascii_uppercase())
        .collect(alloc)
    {
        Ok(upper) => Ok(Bytes::from_vec(upper)),
        Err(_) => Err(CompileFault::Memory),
    }
}

fn copied(alloc: Global, bytes: &Bytes) -> Result<Bytes, CompileFault>
    ensures { MatchResult result (λ b. b ≡ bytes.now) (λ f. f ≡ CompileFault.Memory) }
{
    match Bytes::from_slice(alloc, bytes.as_slice()) {
        Ok(bytes) => Ok(bytes),
        Err(_) => Err(CompileFault::Memory),
    }
}

// The key and the pattern of a call that has one.
fn search_of<S: PatternShop>(
    alloc: Global,
    leaf: &Leaf,
    at: u32,
    shop: &mut S,
) -> Result<Search, CompileFault>
    requires { has_pattern_by leaf.now.matcher ≡ true }
    ensures search { IfOk result (λ s. (s.key ≡ leaf.now.key) × (pattern_text s.pattern ≡ leaf.now.value)) }
    ensures sound { OnOk result (IsSound (call_of leaf.now)) }
    ensures fault { IfErr result (Blames (call_of leaf.now) at (S.refusals shop.old) (S.refusals shop.new)) }
    ensures still { OnOk result (S.refusals shop.new ≡ S.refusals shop.old) }
    ensures later { S.refusals shop.old ≤ S.refusals shop.new }
{
    let pattern = pattern_of(leaf.value.as_slice(), at, shop)?;
    let key = copied(alloc, &leaf.key)?;
    Ok(Search { key, pattern })
}

// The pattern of these bytes, which stand in the call with the number `at`.
fn pattern_of<S: PatternShop>(bytes: &[u8], at: u32, shop: &mut S) -> Result<Pattern, CompileFault>
    ensures text { IfOk result (λ p. pattern_text p ≡ bytes.now) }
    ensures read { OnOk result (IsPatternText bytes.now) }
    ensures fault { IfErr result (BlamesText bytes.now at (S.refusals shop.old) (S.refusals shop.new)) }
    ensures still { OnOk result (S.refusals shop.new ≡ S.refusals shop.old) }
    ensures later { S.refusals shop.old ≤ S.refusals shop.new }
{
    let Ok(text) = std::str::from_utf8(bytes) else {
        return Err(CompileFault::Syntax { leaf: at });
    };
    match shop.build(text) {
        Ok(pattern) => Ok(pattern),
        Err(PatternFault::Syntax) => Err(CompileFault::Syntax { leaf: at }),
        Err(PatternFault::TooBig) => Err(CompileFault::TooBig { leaf: at }),
        Err(PatternFault::Memory) => Err(CompileFault::Memory),
    }
}

// The network of a `ClientIP`.
fn network_of(alloc: Global, leaf: &Leaf, at: u32) -> Result<Network, CompileFault>
    requires { leaf.now.matcher ≡ Matcher.ClientIp }
    ensures network { IfOk result (λ n. (n.key ≡ leaf.now.key) × (n.text ≡ leaf.now.value)) }
    ensures sound { OnOk result (IsNetwork leaf.now.value) }
    ensures fault { IfErr result (BlamesAddress leaf.now.value at) }
{
    let net = match read_net(leaf.value.as_slice()) {
        Some(net) => net,
        None => return Err(CompileFault::Address { leaf: at }),
    };
    let key = copied(alloc, &leaf.key)?;
    let text = copied(alloc, &leaf.value)?;
    Ok(Network { key, text, net })
}
