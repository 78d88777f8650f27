//! What a world in memory tells of one link.
ghost use Rattle.std.specs.Prelude.{◌≡◌, ◌++◌, IfOk, OnOk};
ghost use Rattle.std.specs.List.{flat_map};
ghost use Rattle.link_world.specs.Log.{happening, history_of, taken, notes};
ghost use Rattle.link_world.specs.NoteText.{note_line};
ghost use Rattle.memory_world.specs.Records.{event_of};
ghost use Rattle.memory_world.specs.Logs.{log_of};

use crate::record::Record;
use crate::world::MemoryWorld;
use link_world::note_text;
use px_base::Memory;
use std::alloc::Global;

impl MemoryWorld {
    /// The bytes that a link took.
    pub fn taken(&self, alloc: Global, link: u32) -> Result<Vec<u8>, Memory>
        ensures { IfOk result (λ bytes. bytes.items ≡ taken (history_of link (log_of self.now))) }
    {
        let kept = self.records();
        let mut bytes = Vec::new(alloc);
        for entry in kept {
            push_taken(entry, link, &mut bytes)?;
        }
        Ok(bytes)
    }

    /// The text of the notes of a link, a line each.
    pub fn note_lines(&self, alloc: Global, link: u32) -> Result<Vec<u8>, Memory>
        ensures { IfOk result (λ text. text.items ≡ flat_map note_line (notes (history_of link (log_of self.now)))) }
    {
        let kept = self.records();
        let mut text = Vec::new(alloc);
        for entry in kept {
            push_notes(alloc, entry, link, &mut text)?;
        }
        Ok(text)
    }
}

// Appends what the link took by this record.
fn push_taken(entry: &Record, link: u32, bytes: &mut Vec<u8>) -> Result<(), Memory>
    ensures { OnOk result (bytes.new.items ≡ bytes.old.items ++ taken (happening link (event_of entry.now))) }
{
    match entry {
        Record::Took {
            link: l,
            bytes: took,
            ..
        } => {
            if *l == link {
                bytes.extend_from_slice(took.as_slice())?;
            }
        }
        _ => {}
    }
    Ok(())
}

// Appends the text of this record, where it is a note of the link.
fn push_notes(alloc: Global, entry: &Record, link: u32, text: &mut Vec<u8>) -> Result<(), Memory>
    ensures { OnOk result (text.new.items ≡ text.old.items ++ flat_map note_line (notes (happening link (event_of entry.now)))) }
{
    match entry {
        Record::Noted { note, .. } => {
            if note.link == link {
                note_text(alloc, note, text)?;
            }
        }
        _ => {}
    }
    Ok(())
}
