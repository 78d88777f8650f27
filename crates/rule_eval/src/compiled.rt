//! A compiled rule, and its truth of a request.
ghost use Rattle.std.specs.Prelude.{◌≡◌, ◌↔◌, IsTrue, IfOk, IsOk};
ghost use Rattle.rule_eval.specs.Calls.{is_plain as has_no_dear_call};
ghost use Rattle.rule_eval.specs.Checks.{probe_call, rule_of};
ghost use Rattle.rule_eval.specs.Rules.{compiled_rule};
ghost use Rattle.rule_eval.specs.Truth.{Truth, asked_of};

use crate::asking::is_met;
use crate::check::{Check, Order};
use crate::probe::Probe;
use head_view::RequestView;
use ip_net::Ip;
use px_base::Memory;
use sqlite_items::Boxed;
use std::alloc::Global;

/// A compiled rule. Contracts know it by the rule that it is of, `compiled_rule`.
#[derive(Drop)]
pub struct Compiled {
    pub(crate) check: Boxed<Check>,
}

impl Compiled {
    /// Whether no call of the rule has a pattern or asks the query.
    pub fn plain(&self) -> bool
        ensures { result ≡ has_no_dear_call (compiled_rule self.now) }
    {
        is_plain(self.check.get())
    }
}

/// Whether the rule is true of the request and its peer.
///
/// A plain rule takes no memory, and is always answered.
pub fn holds(
    alloc: Global,
    compiled: &Compiled,
    view: &RequestView<'_>,
    peer: Ip,
) -> Result<bool, Memory>
    ensures truth { IfOk result (λ yes. IsTrue yes ↔ Truth (compiled_rule compiled.now) (asked_of view.now) peer) }
    ensures plain { IsTrue (has_no_dear_call (compiled_rule compiled.now)) → IsOk result }
{
    is_true(alloc, compiled.check.get(), view, peer)
}

fn is_true(alloc: Global, check: &Check, view: &RequestView<'_>, peer: Ip) -> Result<bool, Memory>
    ensures truth { IfOk result (λ yes. IsTrue yes ↔ Truth (rule_of check.now) (asked_of view.now) peer) }
    ensures plain { IsTrue (has_no_dear_call (rule_of check.now)) → IsOk result }
{
    match check {
        Check::Leaf(probe) => is_met(alloc, probe, view, peer),
        Check::Not(inner) => Ok(!is_true(alloc, inner.get(), view, peer)?),
        Check::And(Order::LeftFirst, left, right) => {
            if !is_true(alloc, left.get(), view, peer)? {
                return Ok(false);
            }
            is_true(alloc, right.get(), view, peer)
        }
        Check::And(Order::RightFirst, left, right) => {
            if !is_true(alloc, right.get(), view, peer)? {
                return Ok(false);
            }
            is_true(alloc, left.get(), view, peer)
        }
        Check::Or(Order::LeftFirst, left, right) => {
            if is_true(alloc, left.get(), view, peer)? {
                return Ok(true);
            }
            is_true(alloc, right.get(), view, peer)
        }
        Check::Or(Order::RightFirst, left, right) => {
            if is_true(alloc, right.get(), view, peer)? {
                return Ok(true);
            }
            is_true(alloc, left.get(), view, peer)
        }
    }
}

// Whether no call of a compiled rule has a pattern or asks the query.
pub(crate) fn is_plain(check: &Check) -> bool
    ensures { result ≡ has_no_dear_call (rule_of check.now) }
{
    match check {
        Check::Leaf(probe) => is_plain_probe(probe),
        Check::Not(inner) => is_plain(inner.get()),
        Check::And(_, left, right) => is_plain(left.get()) && is_plain(right.get()),
        Check::Or(_, left, right) => is_plain(left.get()) && is_plain(right.get()),
    }
}

fn is_plain_probe(probe: &Probe) -> bool
    ensures { result ≡ has_no_dear_call (probe_call probe.now) }
{
    match probe {
        Probe::Header(_)
        | Probe::Host(_)
        | Probe::Method(_)
        | Probe::Path(_)
        | Probe::PathPrefix(_)
        | Probe::ClientIp(_) => true,
        Probe::HeaderRegexp(_)
        | Probe::HostRegexp(_)
        | Probe::PathRegexp(_)
        | Probe::Query(_)
        | Probe::QueryRegexp(_) => false,
    }
}
