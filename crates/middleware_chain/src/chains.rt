//! All middlewares of a configuration.
ghost use Rattle.std.specs.Prelude.{◌≡◌};
ghost use Rattle.middleware_chain.specs.Stages.{AreAllBuilt, AreCounted};

use crate::part::Part;
use middleware_graph::{Flat, State};
use px_base::{Bytes, List};

/// All middlewares of a configuration: which can be used, and what each stands for.
#[derive(Drop)]
pub struct Chains {
    // By name.
    pub(crate) middlewares: List<(Bytes, State)>,
    pub(crate) parts: List<Part>,
    pub(crate) flats: List<Flat>,
    // How many patterns were used.
    pub(crate) built: u32,
    pub(crate) ghost counted: { AreCounted middlewares flats },
    pub(crate) ghost all_built: { AreAllBuilt parts flats },
}

/// The middlewares by name, and for how many each stands, or the first reason against it.
pub fn states(chains: &Chains) -> &[(Bytes, State)]
    ensures { result.now ≡ chains.now.middlewares }
{
    chains.middlewares.as_slice()
}

/// How many patterns the middlewares use.
pub fn built(chains: &Chains) -> u32
    ensures { result ≡ chains.now.built }
{
    chains.built
}
