//! The configurations of all providers as one.

ghost use Rattle.std.proofs.Props.{props};
ghost use Rattle.dyn_config.specs.Joined.{AreQualified, AreJoinedInRange};

use crate::{MiddlewareDef, RouterDef, ServiceDef};
use px_base::{Bytes, List};

/// A definition under its qualified name.
#[derive(Drop)]
pub struct Entry<D> {
    /// The declared name, `@` and the provider's name.
    pub name: Bytes,
    /// 0 is `file`, 1 is `consul`.
    pub provider: u32,
    pub def: D,
}

/// The configurations of all providers as one. Qualified names are those of their entries' providers and
/// rise by their bytes, and every value of the definitions is in its range.
#[derive(Drop)]
pub struct Merged {
    pub routers: List<Entry<RouterDef>>,
    pub services: List<Entry<ServiceDef>>,
    pub middlewares: List<Entry<MiddlewareDef>>,
    pub ghost qualified: { AreQualified routers services middlewares } by { Prim.hlevel props },
    pub ghost in_range: { AreJoinedInRange services middlewares },
}
