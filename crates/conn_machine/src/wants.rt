//! The machine of one client connection: what it waits for.
ghost use Rattle.conn_machine.specs.Reached.{IsWant};

use crate::conn::Conn;
use crate::parts::{Phase, Stage};

/// What a connection waits for.
#[derive(Clone, Copy)]
pub enum Want {
    /// Bytes of the client.
    Bytes,
    /// A configuration, for `pin`.
    Pin,
    /// The servers of this balancer that are up, for `looked`.
    Look { node: u32 },
    /// A pick of this balancer, for `drew` or `spent`.
    Walk { node: u32 },
    /// A link to the server where `aim` says, for `dialled`.
    Dial,
    /// Its links: the client's, and this one to the server.
    Exchange { link: u32 },
    /// Its link.
    Links,
    /// Nothing: it ends, or must be given up.
    Ended,
}

impl Conn {
    /// What it waits for.
    pub fn want(&self) -> Want
        ensures { IsWant result self.now }
    {
        match self.phase {
            Phase::Open => match self.stage {
                Stage::Head => Want::Bytes,
                Stage::Pin => Want::Pin,
                Stage::Look => match &self.current.aim {
                    Some(aim) => Want::Look {
                        node: aim.get().node,
                    },
                    None => Want::Links,
                },
                Stage::Walk => match &self.current.aim {
                    Some(aim) => Want::Walk {
                        node: aim.get().node,
                    },
                    None => Want::Links,
                },
                Stage::Dial => Want::Dial,
                Stage::Exchange => Want::Exchange {
                    link: self.current.link,
                },
                _ => Want::Links,
            },
            _ => Want::Ended,
        }
    }
}
