//! The proxy's own replies, as they are spelled for a client.
ghost use Rattle.std.specs.Prelude.{◌≡◌, ◌≢◌, ◌++◌, [], List, ℕ, IsTrue, OnOk};
ghost use Rattle.http_wire.specs.Own.{is_own_error};
ghost use Rattle.conversation.specs.Turns.{IsOwnText};

use http_wire::{own_content, own_reply, spell_reply};
use px_base::Memory;
use std::alloc::Global;

/// Appends an own reply with this status, and whether the connection ends after it.
pub fn own_text(alloc: Global, status: u16, close: bool, out: &mut Vec<u8>) -> Result<(), Memory>
    requires { IsTrue (is_own_error status) }
    ensures some { OnOk result (out.new.items ≢ []) }
    ensures text { OnOk result ((text : List ℕ) × IsOwnText status close text × (out.new.items ≡ out.old.items ++ text)) }
{
    let reply = own_reply(alloc, status, None)?;
    let content = own_content(alloc, status)?;
    spell_reply(&reply, 1, close, out)?;
    out.extend_from_slice(content.as_slice())
}
