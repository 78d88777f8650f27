//! Where notes go.
ghost use Rattle.std.specs.Prelude.{◌≡◌, true, false, IfOk, OnErr};
ghost use Rattle.std.specs.Io.KnownBytes.{Appends};
ghost use Rattle.px_base.specs.Bytes.{Rose};
ghost use Rattle.link_world.specs.NoteText.{note_line};
ghost use Rattle.mio_world.specs.Notes.{Writes, Refuses};

use link_world::{Note, note_text};
use px_base::{Memory, Sink, write_all};
use std::alloc::Global;

/// Where the notes of a world go.
#[derive(Drop)]
pub enum Access<K: Sink> {
    /// No one asked for them.
    Nowhere,
    /// A line each.
    Lines(K),
    /// The file could not be opened: each note is refused.
    Refused,
}

impl<K: Sink> Access<K> {
    /// Writes the text of a note, and answers whether that was done. Where memory runs out for the text nothing is written.
    pub(crate) fn write(&mut self, alloc: Global, note: &Note) -> Result<bool, Memory>
        ensures written { IfOk result (λ done. done ≡ true → Writes K.held self.old note.now self.new) }
        ensures refused { IfOk result (λ done. done ≡ false → Refuses K.faults self.old self.new) }
        ensures same { OnErr result (self.new ≡ self.old) }
    {
        match self {
            Access::Nowhere => Ok(true),
            Access::Refused => Ok(false),
            Access::Lines(sink) => write_line(alloc, sink, note),
        }
    }
}

// Writes a note's line, and answers whether the sink took all of it.
fn write_line<K: Sink>(alloc: Global, sink: &mut K, note: &Note) -> Result<bool, Memory>
    ensures written { IfOk result (λ done. done ≡ true → Appends (K.held sink.old) (K.held sink.new) (note_line note.now)) }
    ensures refused { IfOk result (λ done. done ≡ false → Rose (K.faults sink.old) (K.faults sink.new)) }
    ensures same { OnErr result (sink.new ≡ sink.old) }
{
    let mut line = Vec::new(alloc);
    note_text(alloc, note, &mut line)?;
    match write_all(sink, line.as_slice()) {
        Ok(()) => Ok(true),
        Err(_) => Ok(false),
    }
}
