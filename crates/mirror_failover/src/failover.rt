//! A failover's two sides.

ghost use Rattle.std.specs.Prelude.{◌≡◌};
ghost use Rattle.mirror_failover.specs.Drawn.{first_up};

/// A side of a failover.
#[derive(Clone, Copy, PartialEq, Eq, Debug)]
pub enum Side {
    Main,
    Fallback,
}

/// The main side where it is up, else the fallback where that is up.
pub fn first_available(main: bool, fallback: bool) -> Option<Side>
    ensures { result ≡ first_up main fallback }
{
    if main {
        Some(Side::Main)
    } else if fallback {
        Some(Side::Fallback)
    } else {
        None
    }
}
