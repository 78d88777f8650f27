//! What becomes of a world's notes: each is written, and those of requests are counted.
ghost use Rattle.std.specs.Prelude.{◌≡◌, OnOk, OnErr};
ghost use Rattle.mio_world.specs.Notes.{TakeDid, noted_after, is_due, first_notes};

use crate::access::Access;
use link_world::{Note, NoteBody};
use px_base::{Memory, Sink};
use std::alloc::Global;

/// The notes of a world. Once one is refused, no further one is taken.
#[derive(Drop)]
pub(crate) struct Notes<K: Sink> {
    access: Access<K>,
    /// After so many noted requests a stop is asked for.
    limit: Option<u64>,
    /// How many requests were noted.
    noted: u64,
    /// A note was refused.
    refused: bool,
}

impl<K: Sink> Notes<K> {
    /// No note was taken yet.
    pub fn new(access: Access<K>, limit: Option<u64>) -> Notes<K>
        ensures { result ≡ first_notes access limit }
    {
        Notes {
            access,
            limit,
            noted: 0,
            refused: false,
        }
    }

    /// Whether a note was refused.
    pub fn has_refused(&self) -> bool
        ensures { result ≡ self.now.refused }
    {
        self.refused
    }

    /// Whether so many requests were noted that a stop is asked for.
    pub fn is_due(&self) -> bool
        ensures { result ≡ is_due self.now }
    {
        match self.limit {
            Some(limit) => !self.refused && limit <= self.noted,
            None => false,
        }
    }

    /// Takes a note. Where memory runs out for its text nothing changes.
    pub fn take(&mut self, alloc: Global, note: &Note) -> Result<(), Memory>
        ensures done { OnOk result (TakeDid K.held K.faults self.old note.now self.new) }
        ensures same { OnErr result (self.new ≡ self.old) }
    {
        if self.refused {
            return Ok(());
        }
        if self.access.write(alloc, note)? {
            self.noted = count_note(self.noted, note);
        } else {
            self.refused = true;
        }
        Ok(())
    }
}

// How many requests were noted, after this note.
fn count_note(noted: u64, note: &Note) -> u64
    ensures { result ≡ noted_after noted note.now }
{
    match &note.body {
        NoteBody::Request(_) => noted.saturating_add(1),
        NoteBody::End(_) => noted,
    }
}
