//! A reply on its way from a server to a client.
ghost use Rattle.std.specs.Prelude.{◌≡◌, ◌++◌, ◌∷◌, [], None, Some, List, ℕ, OnOk, IfOk, is_some};
ghost use Rattle.back_machine.specs.Exchanges.{IsOpen};
ghost use Rattle.conn_machine.specs.Relays.{Relays, new_head};

use crate::boxed::BoxedBack;
use http_wire::spell_reply;
use px_base::Memory;
use std::alloc::{AllocError, Global};

/// Appends what a piece of the server's link adds to the reply: its head, once it is whole, and then content.
pub fn relay(
    alloc: Global,
    back: &mut BoxedBack,
    piece: &[u8],
    version: u8,
    close: bool,
    out: &mut Vec<u8>,
) -> Result<(), Memory>
    ensures open { OnOk result (IsOpen back.old.state) }
    ensures relays { OnOk result (Relays back.old back.new piece.now version close out.old.items out.new.items) }
{
    if !back.get().state().is_open() {
        return Err(AllocError);
    }
    let had = has_reply(back);
    let content = back.bytes(alloc, piece)?;
    out.reserve(piece.len())?;
    push_head(had, back, version, close, out)?;
    out.extend_from_slice(&piece[content.from..content.from + content.len])?;
    Ok(())
}

// Appends the head of the reply, where it is whole and wasn't before.
fn push_head(
    had: bool,
    back: &BoxedBack,
    version: u8,
    close: bool,
    out: &mut Vec<u8>,
) -> Result<(), Memory>
    ensures { OnOk result (out.new.items ≡ out.old.items ++ new_head had back.now.reply version close) }
{
    if had {
        return Ok(());
    }
    match back.get().reply() {
        Some(reply) => spell_reply(reply, version, close, out),
        None => Ok(()),
    }
}

fn has_reply(back: &BoxedBack) -> bool
    ensures { result ≡ is_some back.now.reply }
{
    match back.get().reply() {
        Some(_) => true,
        None => false,
    }
}
