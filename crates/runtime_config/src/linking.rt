//! The chains of routers.
ghost use Rattle.std.specs.Prelude.{◌≡◌, All, IfOk};
ghost use Rattle.std.specs.List.{AllZip};
ghost use Rattle.std.specs.Option.{option_copied};
ghost use Rattle.runtime_config.specs.Linked.{HasUsable, HasUsableBy, IsLink, IsLinkBy, link_at as link_of_row};

use middleware_chain::{Chain, Chains, chain_of};
use px_base::{List, Memory};
use router_table::{RouterState, Row};
use std::alloc::Global;

// The chains of the routers in these rows, none where a router is disabled.
pub(crate) fn links_of(
    alloc: Global,
    chains: &Chains,
    rows: &[Row],
) -> Result<List<Option<Chain>>, Memory>
    requires { All (HasUsable chains.now) rows.now }
    ensures { IfOk result (AllZip (IsLink chains.now) rows.now) }
{
    let mut links = List::new(alloc);
    for row in rows {
        let link = link_of(alloc, chains, &row.state)?;
        links.push(link)?;
    }
    Ok(links)
}

fn link_of(alloc: Global, chains: &Chains, state: &RouterState) -> Result<Option<Chain>, Memory>
    requires { HasUsableBy chains.now state.now }
    ensures { IfOk result (IsLinkBy chains.now state.now) }
{
    match state {
        RouterState::Enabled { chain, .. } => {
            let link = chain_of(alloc, chains, chain.as_slice())?;
            Ok(Some(link))
        }
        RouterState::Disabled(_) => Ok(None),
    }
}

// The chain of the row with this number, where it has one.
pub(crate) fn link_at(links: &[Option<Chain>], row: u32) -> Option<&Chain>
    ensures { option_copied result ≡ link_of_row links.now row }
{
    match links.get(row as usize) {
        Some(Some(chain)) => Some(chain),
        Some(None) => None,
        None => None,
    }
}
