//! What a system has to show once a script was told: what was published, what its links took, and its notes.
ghost use Rattle.std.specs.Prelude.{◌≡◌, ◌++◌, IfOk};
ghost use Rattle.std.specs.List.{flat_map};
ghost use Rattle.link_world.specs.NoteText.{note_line};
ghost use Rattle.replay_cmd.specs.Output.{output_text, links_text, link_text, to_text, server_text};

use link_world::{Note, note_text};
use px_base::{Memory, print_decimal};
use replay_script::escape;
use std::alloc::Global;
use system_core::{Authority, Link, System};

/// The text of a system.
pub(crate) fn output_of(alloc: Global, system: &System) -> Result<Vec<u8>, Memory>
    ensures { IfOk result (λ text. text.items ≡ output_text system.now) }
{
    let links = links_of(alloc, system.links())?;
    let notes = notes_of(alloc, system.notes())?;
    let mut text = Vec::from_slice(alloc, b"published ")?;
    print_decimal(system.published() - 1, &mut text)?;
    text.extend_from_slice(b"\n")?;
    text.extend_from_slice(links.as_slice())?;
    text.extend_from_slice(notes.as_slice())?;
    Ok(text)
}

fn links_of(alloc: Global, links: &[Link]) -> Result<Vec<u8>, Memory>
    ensures { IfOk result (λ text. text.items ≡ links_text 0 links.now) }
{
    let mut text = Vec::new(alloc);
    for (number, link) in links.iter().enumerate() {
        let line = link_line(alloc, number as u64, link)?;
        text.extend_from_slice(line.as_slice())?;
    }
    Ok(text)
}

fn link_line(alloc: Global, number: u64, link: &Link) -> Result<Vec<u8>, Memory>
    ensures { IfOk result (λ text. text.items ≡ link_text number link.now) }
{
    let to = to_of(alloc, &link.to)?;
    let mut text = Vec::from_slice(alloc, b"link ")?;
    print_decimal(number, &mut text)?;
    text.extend_from_slice(to.as_slice())?;
    text.extend_from_slice(b" sent ")?;
    escape(link.sent.as_slice(), &mut text)?;
    text.extend_from_slice(b"\n")?;
    Ok(text)
}

fn to_of(alloc: Global, to: &Option<Authority>) -> Result<Vec<u8>, Memory>
    ensures { IfOk result (λ text. text.items ≡ to_text to.now) }
{
    match to {
        Some(to) => authority_of(alloc, to),
        None => Ok(Vec::new(alloc)),
    }
}

fn authority_of(alloc: Global, to: &Authority) -> Result<Vec<u8>, Memory>
    ensures { IfOk result (λ text. text.items ≡ server_text to.now) }
{
    let mut text = Vec::from_slice(alloc, b" to ")?;
    text.extend_from_slice(to.host.as_slice())?;
    text.extend_from_slice(b":")?;
    print_decimal(to.port as u64, &mut text)?;
    Ok(text)
}

fn notes_of(alloc: Global, notes: &[Note]) -> Result<Vec<u8>, Memory>
    ensures { IfOk result (λ text. text.items ≡ flat_map note_line notes.now) }
{
    let mut text = Vec::new(alloc);
    for note in notes {
        note_text(alloc, note, &mut text)?;
    }
    Ok(text)
}
