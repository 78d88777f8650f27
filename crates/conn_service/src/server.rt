//! The link to a server is dialled, written and read.
ghost use Rattle.std.specs.Prelude.{◌≡◌, ◌≢◌, ◌≤◌, ◌<◌, ◌+◌, [], ℕ, length, true, false, IfOk, OnOk, vec_len, vec_capacity};
ghost use Rattle.link_world.specs.Lately.{Lately};
ghost use Rattle.desk.specs.Desks.{Desk};
ghost use Rattle.conn_machine.specs.Prompt.{IsPrompt};
ghost use Rattle.conn_machine.specs.Reached.{IsOpen, KeepsServer, back_pending_of};
ghost use Rattle.conn_service.specs.Moments.{moment, Linked, IsExchanging};
ghost use Rattle.conn_service.specs.Went.{Went};
ghost use Rattle.conn_service.specs.Released.{OnlyCloses, LeavesOpen};
ghost use Rattle.conn_service.specs.Calm.{IsRead};
ghost use Rattle.conn_service.specs.Counts.{Counted, Stays};
ghost use Rattle.conn_service.specs.declared.turn.Reads.{Reads as ReadsOf};

use crate::links::{release, server_of};
use crate::turn::{READS, Reads};
use conn_machine::{Conn, Want};
use link_world::{LinkRead, LinkWrite, World};
use px_base::Memory;
use std::alloc::{AllocError, Global};

/// Dials the server of a request that waits for it.
pub(crate) fn dial<W: World>(conn: &mut Conn, alloc: Global, world: &mut W) -> Result<(), Memory>
    requires { Linked (W.seen world.old) conn.old }
    ensures went { (g : Desk) → Went ⊥ (moment (W.seen world.old) (W.lately world.old) g conn.old)
        (moment (W.seen world.new) (W.lately world.new) g conn.new) }
    ensures leaves { LeavesOpen (W.seen world.old) conn.old (W.seen world.new) conn.new }
    ensures prompt { IsPrompt conn.old → OnOk result (IsPrompt conn.new) }
    ensures reads { (W.lately world.new).reads conn.old.client.link ≡ (W.lately world.old).reads conn.old.client.link }
{
    let Want::Dial = conn.want() else {
        return Ok(());
    };
    conn.reserve()?;
    let Some(aim) = conn.aim() else {
        return Err(AllocError);
    };
    let link = world.dial(aim.server.host.as_slice(), aim.server.port)?;
    let begun = conn.dialled(alloc, link);
    release(conn, world, link);
    begun
}

/// Writes what is pending for the server. Answers whether anything came of it.
pub(crate) fn ask<W: World>(conn: &mut Conn, alloc: Global, world: &mut W) -> Result<bool, Memory>
    requires linked { Linked (W.seen world.old) conn.old }
    requires prompt { IsPrompt conn.old }
    ensures went { (g : Desk) → Went ⊥ (moment (W.seen world.old) (W.lately world.old) g conn.old)
        (moment (W.seen world.new) (W.lately world.new) g conn.new) }
    ensures links { OnlyCloses (W.seen world.old) (W.seen world.new) }
    ensures server { KeepsServer conn.old conn.new }
    ensures prompt { OnOk result (IsPrompt conn.new) }
    ensures counted { (r : ReadsOf) → Counted r (W.lately world.old) conn.old → Counted r (W.lately world.new) conn.new }
    ensures still { IfOk result (λ moved. moved ≡ false → Stays (W.lately world.old) (W.lately world.new) conn.old conn.new
        × (IsExchanging conn.new → back_pending_of conn.new ≢ [] → (W.lately world.new).write_quiet conn.new.current.link ≡ true)) }
{
    let Some(link) = server_of(conn) else {
        return Ok(false);
    };
    if conn.back_pending().is_empty() {
        return Ok(false);
    }
    conn.reserve()?;
    match world.write(link, conn.back_pending()) {
        LinkWrite::Took(n) => {
            conn.back_took(n);
            Ok(true)
        }
        LinkWrite::NotYet => Ok(false),
        LinkWrite::Failed => {
            conn.back_failed(alloc)?;
            Ok(true)
        }
    }
}

/// Reads the link to the server, where it may be read. Answers whether anything came of it.
pub(crate) fn hear<W: World>(
    conn: &mut Conn,
    alloc: Global,
    world: &mut W,
    buffer: &mut [u8],
    reads: &mut Reads,
) -> Result<bool, Memory>
    requires linked { Linked (W.seen world.old) conn.old }
    requires prompt { IsPrompt conn.old }
    requires buffer { length buffer.old ≡ 32768 }
    requires counted { Counted reads.old (W.lately world.old) conn.old }
    ensures went { (g : Desk) → Went ⊥ (moment (W.seen world.old) (W.lately world.old) g conn.old)
        (moment (W.seen world.new) (W.lately world.new) g conn.new) }
    ensures links { OnlyCloses (W.seen world.old) (W.seen world.new) }
    ensures server { KeepsServer conn.old conn.new }
    ensures prompt { OnOk result (IsPrompt conn.new) }
    ensures counted { Counted reads.new (W.lately world.new) conn.new }
    ensures still { IfOk result (λ moved. moved ≡ false → Stays (W.lately world.old) (W.lately world.new) conn.old conn.new
        × (IsExchanging conn.new → IsRead (W.lately world.new) conn.new.current.link)) }
{
    let Some(link) = server_of(conn) else {
        return Ok(false);
    };
    if reads.server >= READS {
        return Ok(false);
    }
    conn.reserve()?;
    reads.server += 1;
    match world.read(link, buffer) {
        LinkRead::Got(n) => {
            conn.back_bytes(alloc, &buffer[..n])?;
            Ok(true)
        }
        LinkRead::NotYet => Ok(false),
        LinkRead::End => {
            conn.back_end(alloc)?;
            Ok(true)
        }
        LinkRead::Failed => {
            conn.back_failed(alloc)?;
            Ok(true)
        }
    }
}
