//! What was done, as a world in memory keeps it.
ghost use Rattle.std.specs.Prelude.{◌≡◌, false, map, IsTrue};
ghost use Rattle.link_world.specs.Log.{IsFresh};
ghost use Rattle.memory_world.specs.Records.{event_of};

use ip_net::Ip;
use link_world::Note;
use px_base::Bytes;

/// A call that did something.
#[derive(Debug, Drop)]
pub enum Record {
    /// A wait until this moment.
    Waited {
        until: u64,
    },
    /// A wait until this moment, which failed.
    WaitFailed {
        until: u64,
    },
    /// The clock answered a greater value.
    Clock {
        now: u64,
    },
    /// A client came. As in each record of a link, `stamp` is the clock's last answer before it.
    Came {
        link: u32,
        stamp: u64,
        entry: Bytes,
        peer: Ip,
    },
    Dialled {
        link: u32,
        stamp: u64,
        host: Bytes,
        port: u16,
    },
    Gave {
        link: u32,
        stamp: u64,
        bytes: Bytes,
    },
    GaveEnd {
        link: u32,
        stamp: u64,
    },
    Took {
        link: u32,
        stamp: u64,
        bytes: Bytes,
    },
    /// A read or a write of the link failed.
    Failed {
        link: u32,
        stamp: u64,
    },
    Noted {
        note: Note,
        stamp: u64,
    },
    Closed {
        link: u32,
        stamp: u64,
    },
    /// Whether a stop was asked for.
    Asked {
        answer: bool,
    },
}

// Whether the record is of this link.
fn is_of(entry: &Record, link: u32) -> bool
    ensures { result ≡ false → Rattle.link_world.specs.Log.is_of link (event_of entry.now) ≡ false }
{
    match entry {
        Record::Waited { .. } => false,
        Record::WaitFailed { .. } => false,
        Record::Clock { .. } => false,
        Record::Came { link: l, .. } => *l == link,
        Record::Dialled { link: l, .. } => *l == link,
        Record::Gave { link: l, .. } => *l == link,
        Record::GaveEnd { link: l, .. } => *l == link,
        Record::Took { link: l, .. } => *l == link,
        Record::Failed { link: l, .. } => *l == link,
        Record::Noted { note, .. } => note.link == link,
        Record::Closed { link: l, .. } => *l == link,
        Record::Asked { .. } => false,
    }
}

/// Whether no record is of this link.
#[tactic(auto, using(crate::proofs::Fresh::fresh_next))]
pub(crate) fn is_fresh(link: u32, log: &[Record]) -> bool
    ensures { IsTrue result → IsFresh link (map event_of log.now) }
{
    for entry in log {
        if is_of(entry, link) {
            return false;
        }
    }
    true
}
