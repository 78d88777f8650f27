//! What happens to a connection, as one value, and the names of events and of states.
ghost use Rattle.std.specs.Prelude.{◌≡◌};
ghost use Rattle.conn_machine.specs.Events.{shape_of, back_shape_of, kind_of, back_kind_of, kind_text, state_text};

use generation::Generation;
use link_world::{Look, NodePick};
use std::alloc::Global;
use std::sync::Arc;

/// What happens to a connection.
#[derive(Drop)]
pub enum ConnEvent<'a> {
    /// The client gave bytes.
    Bytes(&'a [u8]),
    /// The client gave its end.
    End,
    /// The client's link failed.
    Failed,
    /// The current request is answered by this configuration.
    Pinned(Arc<Generation, Global>),
    /// Which servers of a balancer are up.
    Looked(Look),
    /// The schedule of a balancer picked a server.
    Drew(NodePick),
    /// The schedule of this balancer has no pops left.
    Spent { node: u32 },
    /// A link to the server was dialled, one that the connection hasn't had.
    Dialled { link: u32 },
    /// Something happened on this link to the server.
    Back { link: u32, event: BackEvent<'a> },
    /// The client took so many of the bytes that were pending for it.
    Took(usize),
    /// A stop was asked for.
    Stop,
}

/// What happens on a link to a server.
#[derive(Clone, Copy)]
pub enum BackEvent<'a> {
    /// It gave bytes.
    Bytes(&'a [u8]),
    /// It gave its end.
    End,
    /// It failed.
    Failed,
    /// It took so many of the bytes that were pending for it.
    Took(usize),
}

/// What of an event decides whether it may come: its kind, and how many bytes it is of.
#[derive(Clone, Copy)]
pub enum EventShape {
    Bytes(usize),
    End,
    Failed,
    Pinned,
    Looked,
    Drew,
    Dialled,
    Back { link: u32, shape: BackShape },
    Took(usize),
    Stop,
}

/// What of an event on a link to a server decides whether it may come.
#[derive(Clone, Copy)]
pub enum BackShape {
    Bytes(usize),
    End,
    Failed,
    Took(usize),
}

/// The kind of an event, of whichever link.
#[derive(Clone, Copy, Debug, PartialEq, Eq)]
pub enum EventKind {
    Bytes,
    End,
    Fail,
    Pin,
    Look,
    Draw,
    Dial,
    Took,
    Stop,
}

/// The state of a connection.
#[derive(Clone, Copy, Debug, PartialEq, Eq)]
pub enum StateName {
    /// No byte of a request has come.
    Idle,
    /// A head has begun.
    Head,
    /// It waits for a configuration.
    Pin,
    /// It waits for which servers are up.
    Look,
    /// It waits for a pick.
    Walk,
    /// It waits for a link to the server.
    Dial,
    /// It waits for the server.
    Exchange,
    /// It waits for the client to take the reply.
    Reply,
    /// No event may come.
    Ended,
}

impl<'a> ConnEvent<'a> {
    /// What of it decides whether it may come.
    pub fn shape(&self) -> EventShape
        ensures { result ≡ shape_of self.now }
    {
        match self {
            ConnEvent::Bytes(piece) => EventShape::Bytes(piece.len()),
            ConnEvent::End => EventShape::End,
            ConnEvent::Failed => EventShape::Failed,
            ConnEvent::Pinned(_) => EventShape::Pinned,
            ConnEvent::Looked(_) => EventShape::Looked,
            ConnEvent::Drew(_) => EventShape::Drew,
            ConnEvent::Spent { node: _ } => EventShape::Drew,
            ConnEvent::Dialled { link: _ } => EventShape::Dialled,
            ConnEvent::Back { link, event } => EventShape::Back {
                link: *link,
                shape: event.shape(),
            },
            ConnEvent::Took(n) => EventShape::Took(*n),
            ConnEvent::Stop => EventShape::Stop,
        }
    }
}

impl<'a> BackEvent<'a> {
    /// What of it decides whether it may come.
    pub fn shape(&self) -> BackShape
        ensures { result ≡ back_shape_of self.now }
    {
        match self {
            BackEvent::Bytes(piece) => BackShape::Bytes(piece.len()),
            BackEvent::End => BackShape::End,
            BackEvent::Failed => BackShape::Failed,
            BackEvent::Took(n) => BackShape::Took(*n),
        }
    }
}

impl EventShape {
    pub fn kind(self) -> EventKind
        ensures { result ≡ kind_of self }
    {
        match self {
            EventShape::Bytes(_) => EventKind::Bytes,
            EventShape::End => EventKind::End,
            EventShape::Failed => EventKind::Fail,
            EventShape::Pinned => EventKind::Pin,
            EventShape::Looked => EventKind::Look,
            EventShape::Drew => EventKind::Draw,
            EventShape::Dialled => EventKind::Dial,
            EventShape::Back { link: _, shape } => shape.kind(),
            EventShape::Took(_) => EventKind::Took,
            EventShape::Stop => EventKind::Stop,
        }
    }
}

impl BackShape {
    pub fn kind(self) -> EventKind
        ensures { result ≡ back_kind_of self }
    {
        match self {
            BackShape::Bytes(_) => EventKind::Bytes,
            BackShape::End => EventKind::End,
            BackShape::Failed => EventKind::Fail,
            BackShape::Took(_) => EventKind::Took,
        }
    }
}

impl EventKind {
    /// Its word in a script.
    pub fn word(self) -> &'static [u8]
        ensures { result.now ≡ kind_text self }
    {
        match self {
            EventKind::Bytes => b"bytes",
            EventKind::End => b"end",
            EventKind::Fail => b"fail",
            EventKind::Pin => b"pin",
            EventKind::Look => b"look",
            EventKind::Draw => b"draw",
            EventKind::Dial => b"dial",
            EventKind::Took => b"took",
            EventKind::Stop => b"stop",
        }
    }
}

impl StateName {
    /// Its name in what `replay` prints.
    pub fn word(self) -> &'static [u8]
        ensures { result.now ≡ state_text self }
    {
        match self {
            StateName::Idle => b"Idle",
            StateName::Head => b"Head",
            StateName::Pin => b"Pin",
            StateName::Look => b"Look",
            StateName::Walk => b"Walk",
            StateName::Dial => b"Dial",
            StateName::Exchange => b"Exchange",
            StateName::Reply => b"Reply",
            StateName::Ended => b"Ended",
        }
    }
}
