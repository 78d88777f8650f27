//! The outside as a worker sees it: links that give and take bytes, a clock, notes, and their faults.
ghost use Rattle.std.specs.Prelude.{◌≡◌, ◌<◌, length, true};
ghost use Rattle.link_world.specs.Lately.{Lately, OnlyAt, WaitLately, ArrivalLately, DialLately, ReadLately, WriteLately};
ghost use Rattle.link_world.specs.Seen.{Seen, WaitDid, NowDid, ArrivalDid, DialDid, ReadDid, WriteDid, CloseDid, NoteDid, StopDid};

use crate::note::Note;
use ip_net::Ip;
use px_base::{Bytes, Memory};
use std::sync::Wait;

/// What a read of a link answers.
#[derive(Clone, Copy, Debug, PartialEq, Eq)]
pub enum LinkRead {
    /// So many bytes stand at the front of the room, at least one.
    Got(usize),
    /// The link has nothing to give yet.
    NotYet,
    /// The other side has ended: no more bytes come.
    End,
    /// The link failed, and its count of faults rose.
    Failed,
}

/// What a write to a link answers.
#[derive(Clone, Copy, Debug, PartialEq, Eq)]
pub enum LinkWrite {
    /// So many bytes of the piece were taken, at least one.
    Took(usize),
    /// The link has no room yet.
    NotYet,
    /// The link failed, and its count of faults rose.
    Failed,
}

/// A client that came.
#[derive(Debug, Drop)]
pub struct Arrival {
    /// A number that no link of this world had before.
    pub link: u32,
    /// The name of the entry point.
    pub entry: Bytes,
    /// The client's address.
    pub peer: Ip,
}

/// A wait failed, and the world's count of faults rose.
#[derive(Clone, Copy, Debug, PartialEq, Eq)]
pub struct WaitFailed;

/// The outside of a worker. Its counts never fall, and stay at 2^64 - 1 once they are there.
pub trait World {
    /// What is meant of it: counts, links, and the log of what was done where the world tells it.
    ghost seen: { Self → Seen };

    /// What is meant of it since its last wait.
    ghost lately: { Self → Lately };

    /// Waits until something may be there to do, or until the clock is at `until`, in milliseconds.
    fn wait<R: Wait>(&mut self, rt: &R, until: u64) -> Result<(), WaitFailed>
        ensures seen { WaitDid (seen self.old) until result (seen self.new) }
        ensures lately { WaitLately (seen self.old).is_open (lately self.old) result (lately self.new) };

    /// The clock, in milliseconds. It never falls.
    fn now(&mut self) -> u64
        ensures seen { NowDid (seen self.old) result (seen self.new) }
        ensures lately { lately self.new ≡ record (lately self.old) { clocked = true } };

    /// The next client that came, under a link that wasn't given before. A refused call leaves it
    /// where it stood.
    fn arrival(&mut self) -> Result<Option<Arrival>, Memory>
        ensures seen { ArrivalDid (seen self.old) result (seen self.new) }
        ensures lately { ArrivalLately (lately self.old) result (lately self.new) };

    /// Dials, under a link that wasn't given before. A dial that fails shows as a fault of its link.
    fn dial(&mut self, host: &[u8], port: u16) -> Result<u32, Memory>
        ensures seen { DialDid (seen self.old) host.now port result (seen self.new) }
        ensures lately { DialLately (lately self.old) result (lately self.new) };

    /// Reads the link's next bytes to the front of the room.
    fn read(&mut self, link: u32, room: &mut [u8]) -> LinkRead
        requires given { (seen self.old).is_open link ≡ true }
        requires room { 0 < length room.old }
        ensures seen { ReadDid (seen self.old) link result room.new (seen self.new) }
        ensures lately { ReadLately (lately self.old) link result (lately self.new) };

    /// Offers the piece to the link, which takes its first bytes.
    fn write(&mut self, link: u32, piece: &[u8]) -> LinkWrite
        requires given { (seen self.old).is_open link ≡ true }
        requires piece { 0 < length piece.now }
        ensures seen { WriteDid (seen self.old) link piece.now result (seen self.new) }
        ensures lately { WriteLately (lately self.old) link result (lately self.new) };

    /// Closes an open link. Of a link that isn't open it does nothing.
    fn close(&mut self, link: u32)
        ensures seen { CloseDid (seen self.old) link (seen self.new) }
        ensures lately { OnlyAt link (lately self.old) (lately self.new) };

    /// Keeps a note, or hands it on.
    fn note(&mut self, note: Note) -> Result<(), Memory>
        ensures seen { NoteDid (seen self.old) note result (seen self.new) }
        ensures lately { lately self.new ≡ lately self.old };

    /// Whether a stop was asked for.
    fn stop_asked(&mut self) -> bool
        ensures seen { StopDid (seen self.old) result (seen self.new) }
        ensures lately { lately self.new ≡ lately self.old };
}
