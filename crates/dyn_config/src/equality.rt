//! Whether two configurations are the same.

ghost use Rattle.std.specs.Prelude.{◌≡◌, ◌↔◌, IsTrue};

use crate::{Config, MiddlewareDef, RouterDef, ServiceDef};
use px_base::{Bytes, List};

/// Whether two configurations are the same: field by field, and lists element by element. It takes no memory.
pub fn equal(a: &Config, b: &Config) -> bool
    ensures { IsTrue result ↔ (a.now ≡ b.now) }
{
    are_same_routers(&a.routers, &b.routers)
        && are_same_services(&a.services, &b.services)
        && are_same_middlewares(&a.middlewares, &b.middlewares)
}

fn are_same_routers(a: &List<(Bytes, RouterDef)>, b: &List<(Bytes, RouterDef)>) -> bool
    ensures { IsTrue result ↔ (a.now ≡ b.now) }
{
    a == b
}

fn are_same_services(a: &List<(Bytes, ServiceDef)>, b: &List<(Bytes, ServiceDef)>) -> bool
    ensures { IsTrue result ↔ (a.now ≡ b.now) }
{
    a == b
}

fn are_same_middlewares(a: &List<(Bytes, MiddlewareDef)>, b: &List<(Bytes, MiddlewareDef)>) -> bool
    ensures { IsTrue result ↔ (a.now ≡ b.now) }
{
    a == b
}
