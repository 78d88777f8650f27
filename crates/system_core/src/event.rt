//! What happens outside, and why an event is refused.
ghost use Rattle.std.specs.Prelude.{◌≡◌};
ghost use Rattle.system_core.specs.Answers.{kind_word};
ghost use Rattle.system_core.specs.declared.event.Refused.TheVariants.{Memory as WantsMemory};

use conn_machine::{EventKind, StateName};
use generation::Generation;
use ip_net::Ip;
use px_base::{Bytes, Memory};
use std::alloc::Global;
use std::sync::Arc;

/// What happens outside. Links are numbered from 0, over clients that come and links that are dialled together.
#[derive(Drop)]
pub enum Event {
    /// The next configuration, which differs from the one before it. It waits to be published.
    Config { issue: Arc<Generation, Global> },
    /// The configuration that waits is published.
    Publish,
    /// A client comes at an entry point, from an address, on the next link.
    Arrive { entry: Bytes, peer: Ip },
    /// A link gives bytes.
    Bytes { link: u32, bytes: Bytes },
    /// A link gives its end.
    End { link: u32 },
    /// A link fails.
    Fail { link: u32 },
    /// The current request of a client is pinned to the newest configuration.
    Pin { link: u32 },
    /// It looks which servers of its balancer are up.
    Look { link: u32 },
    /// It draws a server of its balancer.
    Draw { link: u32 },
    /// The next link is dialled to its server.
    Dial { link: u32 },
    /// A link takes so many of the bytes that are pending for it.
    Took { link: u32, count: usize },
    /// A stop is asked for.
    Stop,
}

/// The kind of an event.
#[derive(Clone, Copy, Debug, PartialEq, Eq)]
pub enum Kind {
    Config,
    Publish,
    Arrive,
    /// One that a connection is told.
    Conn(EventKind),
}

/// Why an event is refused.
#[derive(Clone, Copy, Debug, PartialEq, Eq)]
pub enum Refused {
    NoSuchLink { link: u32 },
    /// It may not come in this state of its connection, or, where it is of no connection, in `Idle`.
    NotEnabled { kind: Kind, state: StateName },
    Memory,
}

impl From<Memory> for Refused {
    ghost from_gives = { λ _ e. e ≡ WantsMemory };

    fn from(_: Memory) -> Refused {
        Refused::Memory
    }
}

impl Kind {
    /// Its word in a script.
    pub fn word(self) -> &'static [u8]
        ensures { result.now ≡ kind_word self }
    {
        match self {
            Kind::Config => b"config",
            Kind::Publish => b"publish",
            Kind::Arrive => b"arrive",
            Kind::Conn(kind) => kind.word(),
        }
    }
}
