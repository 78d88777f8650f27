//! The parts of a connection's machine.
use crate::boxed::{BoxedAim, BoxedBack, BoxedRequest};
use generation::Generation;
use ip_net::Ip;
use link_world::{Cause, EndCause};
use px_base::{Bytes, Server};
use std::alloc::Global;
use std::sync::Arc;

/// Where a connection came.
#[derive(Drop)]
pub struct Client {
    pub link: u32,
    pub entry: Bytes,
    pub peer: Ip,
}

/// What the current request asks for.
#[derive(Drop)]
pub enum Asked {
    Nothing,
    Request(BoxedRequest),
    /// It is refused for this cause.
    Refused(Cause),
}

/// Where a request goes: the one server of a balancer.
#[derive(Drop)]
pub struct Aim {
    pub node: u32,
    pub server: Server,
    pub pass_host: bool,
}

/// The current request: what it asks for, the length of its head, and what its note will say.
#[derive(Drop)]
pub struct Current {
    pub asked: Asked,
    pub size: usize,
    pub issue: Option<Arc<Generation, Global>>,
    pub pinned: bool,
    /// Its place on the connection, from 1.
    pub index: u32,
    /// The number of the last pin.
    pub number: u64,
    pub router: Option<u32>,
    pub status: u16,
    /// The link that was dialled for it.
    pub link: u32,
    pub cause: Cause,
    pub aim: Option<BoxedAim>,
    pub back: Option<BoxedBack>,
}

/// What a connection waits for.
#[derive(Clone, Copy, PartialEq, Eq)]
pub enum Stage {
    /// The head of a request.
    Head,
    /// A configuration.
    Pin,
    /// Nothing: the router is looked for.
    Route,
    /// Which servers are up.
    Look,
    /// Nothing: its server is down.
    Down,
    /// A pick.
    Walk,
    /// Nothing: its draw was refused.
    Spent,
    /// A link to the server.
    Dial,
    /// Nothing: a link was dialled.
    Dialled,
    /// The server.
    Exchange,
    /// The client, to take the reply.
    Reply,
}

/// Whether a connection goes on.
#[derive(Clone, Copy)]
pub enum Phase {
    Open,
    /// A call found no memory: what was read or answered may not be stored.
    Broken,
    /// It ends for this cause.
    Over(EndCause),
    /// Its end was noted.
    Told(EndCause),
}
