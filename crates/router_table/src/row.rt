//! A router as a row of the table.
ghost use Rattle.std.specs.Prelude.{◌≡◌, true, IsTrue, IfOk, IsOk, ◌↔◌};
ghost use Rattle.rule_eval.specs.Truth.{asked_of};
ghost use Rattle.router_table.specs.Winner.{is_on as is_on_entry, Serves, is_enabled as is_enabled_row, is_plain_row};

use crate::fault::RouterFault;
use crate::references::is_listed;
use head_view::RequestView;
use ip_net::Ip;
use px_base::{Bytes, List, Memory};
use rule_eval::{Compiled, holds};
use std::alloc::Global;

/// By what an enabled router is found: its entry points, none meaning all, and its compiled rule.
#[derive(Drop)]
pub struct Search {
    pub(crate) entry_points: List<Bytes>,
    pub(crate) rule: Compiled,
}

/// Whether a router serves.
#[derive(Drop)]
pub enum RouterState {
    Enabled {
        /// The qualified name of its service.
        service: Bytes,
        /// The qualified names of its middlewares, in order.
        chain: List<Bytes>,
        search: Search,
    },
    Disabled(RouterFault),
}

/// A router.
#[derive(Drop)]
pub struct Row {
    /// Its qualified name.
    pub name: Bytes,
    /// The greater wins: the router's own, or where that is 0 the length of its rule in bytes.
    pub priority: i64,
    pub state: RouterState,
}

impl Row {
    // Whether the router serves at all.
    pub(crate) fn is_enabled(&self) -> bool
        ensures { result ≡ is_enabled_row self.now }
    {
        match self.state {
            RouterState::Enabled { .. } => true,
            RouterState::Disabled(_) => false,
        }
    }

    // Whether the router serves a request that came at this entry point.
    pub(crate) fn serves(
        &self,
        alloc: Global,
        entry: &[u8],
        view: &RequestView<'_>,
        peer: Ip,
    ) -> Result<bool, Memory>
        ensures truth { IfOk result (λ yes. IsTrue yes ↔ Serves entry.now (asked_of view.now) peer self.now) }
        ensures plain { is_plain_row self.now ≡ true → IsOk result }
    {
        match &self.state {
            RouterState::Enabled { search, .. } => search.takes(alloc, entry, view, peer),
            RouterState::Disabled(_) => Ok(false),
        }
    }
}

impl Search {
    ghost use Rattle.router_table.specs.Winner.{Takes, is_plain_search};

    // Whether the entry point is one of its own, and its rule is true.
    fn takes(
        &self,
        alloc: Global,
        entry: &[u8],
        view: &RequestView<'_>,
        peer: Ip,
    ) -> Result<bool, Memory>
        ensures truth { IfOk result (λ yes. IsTrue yes ↔ Takes entry.now (asked_of view.now) peer self.now) }
        ensures plain { is_plain_search self.now ≡ true → IsOk result }
    {
        if !is_on(self.entry_points.as_slice(), entry) {
            return Ok(false);
        }
        holds(alloc, &self.rule, view, peer)
    }
}

// Whether the entry point is one of these; of none means that it is.
fn is_on(entry_points: &[Bytes], entry: &[u8]) -> bool
    ensures { result ≡ is_on_entry entry_points.now entry.now }
{
    entry_points.is_empty() || is_listed(entry_points, entry)
}
