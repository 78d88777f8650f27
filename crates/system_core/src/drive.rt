// One event of one connection, and the notes that follow it.
ghost use Rattle.std.specs.Prelude.{◌≡◌, ◌≤◌, ℕ, OnOk};
ghost use Rattle.conversation.specs.Steps.{stopped as told_stop};
ghost use Rattle.conn_machine.specs.Events.{IsEnabled, IsAsked, shape_of, step_of, number_after};
ghost use Rattle.conn_machine.specs.Reached.{IsDrained, IsOpen};
ghost use Rattle.system_core.specs.Drives.{Noted, Driven};

use conn_machine::{Conn, ConnEvent};
use link_world::Note;
use px_base::Memory;
use std::alloc::Global;

/// Tells the connection an event that may come, and keeps the notes that it then has.
pub(crate) fn drive(
    alloc: Global,
    conn: &mut Conn,
    event: ConnEvent<'_>,
    notes: &mut Vec<Note>,
) -> Result<(), Memory>
    requires enabled { IsEnabled (shape_of event) conn.old }
    requires asked { IsAsked event conn.old }
    ensures driven { OnOk result (Driven (step_of conn.old event.entry) conn.old conn.new notes.old.items notes.new.items) }
    // It isn't pinned to a greater number than the event's or its own.
    ensures number { (n : ℕ) → number_after event.entry 0 ≤ n → conn.old.current.number ≤ n → conn.new.current.number ≤ n }
{
    conn.reserve()?;
    conn.step(alloc, event)?;
    tell_notes(alloc, conn, notes)?;
    Ok(())
}

/// Tells an open connection that a stop was asked for, and keeps the notes that it then has.
pub(crate) fn halt(alloc: Global, conn: &mut Conn, notes: &mut Vec<Note>) -> Result<(), Memory>
    requires { IsOpen conn.old }
    ensures driven { OnOk result (Driven told_stop conn.old conn.new notes.old.items notes.new.items) }
    ensures closed { ¬ (IsOpen conn.new) }
    ensures number { conn.new.current.number ≡ conn.old.current.number }
{
    conn.stop();
    tell_notes(alloc, conn, notes)?;
    Ok(())
}

// Takes the notes of the connection.
fn tell_notes(alloc: Global, conn: &mut Conn, notes: &mut Vec<Note>) -> Result<(), Memory>
    ensures noted { OnOk result (Noted conn.old conn.new notes.old.items notes.new.items) }
    ensures drained { OnOk result (IsDrained conn.new) }
    ensures number { conn.new.current.number ≡ conn.old.current.number }
    ensures opens { IsOpen conn.new → IsOpen conn.old }
{
    while let Some(note) = conn.take_note(alloc) {
        notes.push(note)?;
    }
    Ok(())
}
