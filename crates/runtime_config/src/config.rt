//! A configuration as it runs.
ghost use Rattle.std.specs.Prelude.{IsTrue};
ghost use Rattle.std.specs.List.{list_all};
ghost use Rattle.runtime_config.specs.Linked.{AreLinked, has_node};

use crate::leading::{NodeAt, node_named};
use crate::linking::link_at;
use dyn_config::Merged;
use head_view::RequestView;
use http_wire::{Reply, Request};
use ip_net::Ip;
use middleware_chain::{Chain, Chains, Flow, apply, apply_reply};
use px_base::{List, Memory};
use router_table::{RouterState, Row, Table, rows, winner};
use service_nodes::Graph;
use std::alloc::Global;

/// A configuration as it runs.
///
/// In what `build_runtime` gives, each router, service and middleware can be used, or has the first reason against it.
/// The type itself keeps that what an enabled router names is there.
#[derive(Drop)]
pub struct RuntimeConfig {
    pub(crate) merged: Merged,
    pub(crate) graph: Graph,
    pub(crate) chains: Chains,
    pub(crate) table: Table,
    // One a row: what the middlewares of an enabled router stand for.
    pub(crate) links: List<Option<Chain>>,
    // The service of each enabled router is a node.
    ghost led: { IsTrue (list_all (has_node graph.nodes) table.rows) },
    // Each enabled router has its chain.
    ghost linked: { AreLinked chains table.rows links },
}

impl RuntimeConfig {
    ghost use Rattle.std.specs.Prelude.{◌≡◌, true, Some, IfOk, IsOk, MatchOption};
    ghost use Rattle.rule_eval.specs.Truth.{asked_of};
    ghost use Rattle.router_table.specs.Winner.{WinnerIs, is_plain_row};
    ghost use Rattle.middleware_chain.specs.Chained.{IsChainOf};
    ghost use Rattle.middleware_chain.specs.Folds.{BackThrough, Through};
    ghost use Rattle.middleware_chain.specs.Written.{IsSafe, IsSafeReply, is_one_word};
    ghost use Rattle.runtime_config.specs.Linked.{link_at as link_of_row};
    ghost use Rattle.runtime_config.specs.Runtime.{IsEnabledAt, LeadsTo, stages_of};

    /// The configuration that it was built of.
    pub fn merged(&self) -> &Merged
        ensures { result.now ≡ self.now.merged }
    {
        &self.merged
    }

    /// Its services: the sound ones as nodes, and the faults of the others.
    pub fn graph(&self) -> &Graph
        ensures { result.now ≡ self.now.graph }
    {
        &self.graph
    }

    /// Its middlewares: which can be used, and what each stands for.
    pub fn chains(&self) -> &Chains
        ensures { result.now ≡ self.now.chains }
    {
        &self.chains
    }

    /// Its routers, by name.
    pub fn rows(&self) -> &[Row]
        ensures { result.now ≡ self.now.table.rows }
    {
        rows(&self.table)
    }

    /// The row of the router that a request gets: of those that are enabled, on its entry point, and whose rule is true of
    /// it, the one of greatest priority, and of equal ones the one of least name. None exactly where there is none.
    ///
    /// Where no rule asks a pattern or the query, it takes no memory.
    pub fn winner(
        &self,
        alloc: Global,
        entry: &[u8],
        view: &RequestView<'_>,
        peer: Ip,
    ) -> Result<Option<u32>, Memory>
        ensures winner { IfOk result (WinnerIs self.now.table.rows entry.now (asked_of view.now) peer) }
        ensures plain { list_all is_plain_row self.now.table.rows ≡ true → IsOk result }
    {
        winner(alloc, &self.table, entry, view, peer)
    }

    /// The node to which the router in a row leads: that of its service. None exactly where no enabled router has this row.
    pub fn node(&self, row: u32) -> Option<NodeAt<'_>>
        ensures { MatchOption result
            (¬ (IsEnabledAt self.now.table.rows row))
            (λ at. LeadsTo self.now row at.number at.node.now) }
    {
        match rows(&self.table).get(row as usize) {
            Some(found) => match &found.state {
                RouterState::Enabled { service, .. } => {
                    Some(node_named(&self.graph, service.as_slice()))
                }
                RouterState::Disabled(_) => None,
            },
            None => None,
        }
    }

    /// Asks the middlewares of the enabled router in a row in order what to do with a request of this peer: it goes on, perhaps
    /// changed, or the first that stops it does, with an own reply.
    ///
    /// Where memory runs out the request is lost.
    pub fn apply(&self, alloc: Global, row: u32, request: Request, peer: Ip) -> Result<Flow, Memory>
        requires { IsEnabledAt self.now.table.rows row }
        ensures through { IfOk result (Through (stages_of self.now row) request peer) }
        // Whatever the chain is, where the path is one word: what goes on carries nothing by which a message could be smuggled.
        ensures safe { IfOk result (λ flow. IsTrue (is_one_word request.path) → IsSafe request flow) }
    {
        apply(alloc, &self.chains, self.chain_at(row), request, peer)
    }

    /// Asks the middlewares of the enabled router in a row what to do with a reply, the last one first.
    ///
    /// Where memory runs out the reply is lost.
    pub fn apply_reply(&self, alloc: Global, row: u32, reply: Reply) -> Result<Reply, Memory>
        requires { IsEnabledAt self.now.table.rows row }
        ensures through { IfOk result (BackThrough (stages_of self.now row) reply) }
        ensures safe { IfOk result (IsSafeReply reply) }
    {
        apply_reply(alloc, &self.chains, self.chain_at(row), reply)
    }

    // The chain of the enabled router in a row.
    fn chain_at(&self, row: u32) -> &Chain
        requires { IsEnabledAt self.now.table.rows row }
        ensures there { link_of_row self.now.links row ≡ Some result.now }
        ensures built { IsChainOf self.now.chains result.now }
    {
        match link_at(self.links.as_slice(), row) {
            Some(chain) => chain,
            None => unreachable!(),
        }
    }
}
