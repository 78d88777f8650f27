//! What a connection notes: each request with the reply that it got, and in the end why the connection ended.
use px_base::List;
use wrr_deadlines::Pick;

/// A note of one client connection.
#[derive(Debug, Drop)]
pub struct Note {
    /// The client link.
    pub link: u32,
    pub body: NoteBody,
}

#[derive(Debug, Drop)]
pub enum NoteBody {
    Request(RequestNote),
    End(EndCause),
}

/// A request that was pinned, with the reply that it got and what led to it.
#[derive(Debug, Drop)]
pub struct RequestNote {
    /// The place of the request on its connection, from 1.
    pub index: u32,
    /// The number of the configuration by which it was answered.
    pub generation: u64,
    /// The row of the router that took it; none where no router was looked for or none matched.
    pub router: Option<u32>,
    /// The status of its reply, or 0 where none was decided.
    pub status: u16,
    pub cause: Cause,
    pub looks: List<Look>,
    pub picks: List<NodePick>,
    pub turns: List<NodeTurn>,
    /// The links that were dialled for it, the main one first.
    pub backs: List<u32>,
}

/// Which servers of a balancer were up: bit i of the mask is server i's.
#[derive(Clone, Copy, Debug, PartialEq, Eq)]
pub struct Look {
    pub node: u32,
    pub mask: u64,
}

/// A pick of a child at a node.
#[derive(Clone, Copy, Debug, PartialEq, Eq)]
pub struct NodePick {
    pub node: u32,
    pub pick: Pick,
}

/// A turn of the mirrors at a node: bit i of `selected` is mirror i's.
#[derive(Clone, Copy, Debug, PartialEq, Eq)]
pub struct NodeTurn {
    pub node: u32,
    pub n: u64,
    pub selected: u64,
}

/// Why a reply has its status. Moments are in milliseconds.
#[derive(Clone, Copy, Debug, PartialEq, Eq)]
pub enum Cause {
    /// The backend's own reply was passed on.
    Passed,
    /// The connection ended before a reply was decided.
    Undecided,
    /// The request's head has this fault.
    Head(HeadName),
    /// The request's head is too large.
    HeadTooLarge,
    /// No router matches.
    NoRouter,
    /// The middleware at this place answered.
    Stopped { place: u32 },
    /// The request's body is too large.
    BodyTooLarge,
    /// No child of the service was available.
    NoChild,
    /// The schedule of this node has no pops left.
    Spent { node: u32 },
    /// The backend's link failed before a whole reply head.
    BackFailed { link: u32 },
    /// The backend's link gave no valid reply.
    BackBad { link: u32 },
    /// The backend's link gave no whole reply head in time.
    BackLate { link: u32, base: u64, now: u64 },
}

/// The name of a fault of a request's head.
#[derive(Clone, Copy, Debug, PartialEq, Eq)]
pub enum HeadName {
    BadHead,
    NoHost,
    TwoHosts,
    BadLength,
    BothLengths,
    BadCoding,
    BadTarget,
    BadEscape,
}

/// Why a connection ended. Moments are in milliseconds.
#[derive(Clone, Copy, Debug, PartialEq, Eq)]
pub enum EndCause {
    /// The client ended it.
    Client,
    /// The client's link failed.
    ClientFailed,
    /// The client asked for its end after the reply.
    Asked,
    /// A request was refused.
    Refused,
    /// A reply came before its request's body was read whole.
    Unread,
    /// The client gave no whole head in time.
    Idle { base: u64, now: u64 },
    /// It had as many requests as a connection may have.
    Count,
    /// A reply that was begun could not be finished, by this link.
    Cut { link: u32 },
    /// A reply that was begun could not be finished in time.
    CutLate { base: u64, now: u64 },
    /// The proxy was stopped.
    Stopped,
    /// Memory ran out.
    Memory,
}
