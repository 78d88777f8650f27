//! The configuration of a file alone.
ghost use Rattle.std.specs.Prelude.{◌↔◌, IsTrue, IfOk};
ghost use Rattle.provider_merge.specs.Merging.{DeclaresNothing, IsFileAlone};

use crate::both::merge;
use dyn_config::{Config, Merged};
use px_base::{List, Memory};
use std::alloc::Global;

/// What a file declares, under qualified names, where no other provider declares anything.
pub fn merge_file(alloc: Global, file: Config) -> Result<Merged, Memory>
    ensures { IfOk result (IsFileAlone file) }
{
    merge(alloc, file, empty_config(alloc))
}

/// Whether a configuration declares nothing.
pub fn declares_nothing(config: &Config) -> bool
    ensures { IsTrue result ↔ DeclaresNothing config.now }
{
    config.routers.is_empty() && config.services.is_empty() && config.middlewares.is_empty()
}

/// The configuration that declares nothing.
pub(crate) fn empty_config(alloc: Global) -> Config
    ensures { DeclaresNothing result }
{
    Config {
        routers: List::new(alloc),
        services: List::new(alloc),
        middlewares: List::new(alloc),
    }
}
