//! A configuration under its number.
ghost use Rattle.std.specs.Prelude.{◌≡◌, [], IfOk, IsTrue, MatchOption};
ghost use Rattle.std.specs.List.{list_all};
ghost use Rattle.generation.specs.Nodes.{has_node};

use crate::nodes::{Node, Target, target_of};
use dyn_config::Merged;
use head_view::RequestView;
use ip_net::Ip;
use px_base::{List, Memory};
use router_table::{RouterState, Row, Table, build_table, rows, winner};
use rule_eval::RegexShop;
use std::alloc::Global;

/// A configuration as it was published, under its number.
#[derive(Drop)]
pub struct Generation {
    pub(crate) number: u64,
    pub(crate) table: Table,
    pub(crate) nodes: List<Node>,
    // The service of each enabled router is among the nodes.
    ghost led: { IsTrue (list_all (has_node nodes) table.rows) },
}

impl Generation {
    ghost use Rattle.conversation.specs.Plans.{IsWinner};
    ghost use Rattle.rule_eval.specs.Truth.{asked_of};
    ghost use Rattle.generation.specs.Meaning.{plan_of, aim_of, IsEnabledAt};

    /// The configuration without routers, under this number.
    pub fn empty(alloc: Global, number: u64) -> Result<Generation, Memory>
        ensures number { IfOk result (λ g. (plan_of g).number ≡ number) }
        ensures rows { IfOk result (λ g. (plan_of g).rows ≡ []) }
    {
        let merged = Merged {
            routers: List::new(alloc),
            services: List::new(alloc),
            middlewares: List::new(alloc),
        };
        let table = build_table(alloc, &merged, &[], &[], 0, &mut RegexShop::new(alloc))?;
        Ok(Generation {
            number,
            table,
            nodes: List::new(alloc),
        })
    }

    /// Its number: each publication has one more than the one before it.
    pub fn number(&self) -> u64
        ensures { result ≡ (plan_of self.now).number }
    {
        self.number
    }

    /// The routers, by name.
    pub fn rows(&self) -> &[Row]
        ensures { result.now ≡ self.now.table.rows }
    {
        rows(&self.table)
    }

    /// The row of the router that a request gets: of those that are enabled, on its entry point, and whose rule is true of
    /// it, the one of greatest priority, and of equal ones the one of least name.
    pub fn winner(
        &self,
        alloc: Global,
        entry: &[u8],
        view: &RequestView<'_>,
        peer: Ip,
    ) -> Result<Option<u32>, Memory>
        ensures { IfOk result (IsWinner (plan_of self.now) entry.now (asked_of view.now) peer) }
    {
        winner(alloc, &self.table, entry, view, peer)
    }

    /// Where the router in a row leads. None exactly where no enabled router has this row.
    pub fn target(&self, row: u32) -> Option<&Target>
        ensures { MatchOption result
            (¬ (IsEnabledAt (plan_of self.now).rows row))
            (λ target. IsEnabledAt (plan_of self.now).rows row × ((plan_of self.now).target row ≡ aim_of target.now)) }
    {
        match rows(&self.table).get(row as usize) {
            Some(found) => match &found.state {
                RouterState::Enabled { service, .. } => {
                    target_of(self.nodes.as_slice(), service.as_slice())
                }
                RouterState::Disabled(_) => None,
            },
            None => None,
        }
    }
}
