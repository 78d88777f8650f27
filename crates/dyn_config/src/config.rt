//! The configuration of one provider.

ghost use Rattle.std.proofs.Props.{props};
ghost use Rattle.dyn_config.specs.Kept.{AreFew, AreNamed, AreInRange};

use crate::{MiddlewareDef, RouterDef, ServiceDef};
use px_base::{Bytes, List};

/// The configuration of one provider. Its names are valid, rise by their bytes and are within the limits,
/// and every value of its definitions is in its range.
#[derive(Drop)]
pub struct Config {
    /// At most 2,000.
    pub routers: List<(Bytes, RouterDef)>,
    /// At most 500.
    pub services: List<(Bytes, ServiceDef)>,
    /// At most 500.
    pub middlewares: List<(Bytes, MiddlewareDef)>,
    pub ghost few: { AreFew routers services middlewares },
    pub ghost named: { AreNamed routers services middlewares } by { Prim.hlevel props },
    pub ghost in_range: { AreInRange services middlewares },
}
