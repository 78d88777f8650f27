//! The client's link is read and written.
ghost use Rattle.std.specs.Prelude.{◌≡◌, ◌≢◌, ◌≤◌, ◌<◌, ℕ, [], length, true, false, IfOk, OnOk, IfNone, IfSome, vec_len, vec_capacity};
ghost use Rattle.link_world.specs.Lately.{Lately, ReadLately};
ghost use Rattle.link_world.specs.Seen.{Seen, ReadDid};
ghost use Rattle.desk.specs.Desks.{Desk};
ghost use Rattle.conn_machine.specs.Prompt.{IsPrompt};
ghost use Rattle.conn_machine.specs.Reached.{IsOpen, KeepsServer, pending_of};
ghost use Rattle.conn_service.specs.Moments.{moment, Linked};
ghost use Rattle.conn_service.specs.Went.{Went};
ghost use Rattle.conn_service.specs.Released.{OnlyCloses};
ghost use Rattle.conn_service.specs.Calm.{ReadDone};
ghost use Rattle.conn_service.specs.Counts.{Counted, SameWork, Stays};
ghost use Rattle.conn_service.specs.declared.turn.Reads.{Reads as ReadsOf};

use crate::turn::{READS, ROOM, Reads};
use conn_machine::Conn;
use link_world::{LinkRead, LinkWrite, World};
use px_base::Memory;
use std::alloc::Global;

/// Reads the client's link, where it may be read. Answers whether anything came of it.
pub(crate) fn receive<W: World>(
    conn: &mut Conn,
    alloc: Global,
    world: &mut W,
    buffer: &mut [u8],
    reads: &mut Reads,
) -> Result<bool, Memory>
    requires linked { Linked (W.seen world.old) conn.old }
    requires prompt { IsPrompt conn.old }
    requires buffer { length buffer.old ≡ 32768 }
    requires counted { Counted reads.old (W.lately world.old) conn.old }
    ensures went { (g : Desk) → Went ⊥ (moment (W.seen world.old) (W.lately world.old) g conn.old)
        (moment (W.seen world.new) (W.lately world.new) g conn.new) }
    ensures links { OnlyCloses (W.seen world.old) (W.seen world.new) }
    ensures server { KeepsServer conn.old conn.new }
    ensures prompt { OnOk result (IsPrompt conn.new) }
    ensures counted { Counted reads.new (W.lately world.new) conn.new }
    ensures still { IfOk result (λ moved. moved ≡ false → IsOpen conn.new
        → Stays (W.lately world.old) (W.lately world.new) conn.old conn.new × ReadDone (W.lately world.new) conn.new) }
{
    let Some(room) = room_for(conn, reads) else {
        return Ok(false);
    };
    reads.client += 1;
    let read = read_client(conn, world, buffer, room);
    take_read(conn, alloc, buffer, read)
}

/// How many bytes of the client may still wait, where its link may be read.
pub(crate) fn room_for(conn: &Conn, reads: &Reads) -> Option<usize>
    ensures none { IfNone result ((l : Lately) → Counted reads.now l conn.now → IsOpen conn.now → ReadDone l conn.now) }
    ensures some { IfSome result (λ room. IsOpen conn.now × (0 < room) × (room ≤ 32768) × (reads.now.client < 64)) }
{
    if !conn.is_open() {
        return None;
    }
    if conn.over {
        return None;
    }
    if reads.client >= READS {
        return None;
    }
    let held = conn.input.as_slice().len();
    if held >= ROOM {
        return None;
    }
    Some(ROOM - held)
}

/// Reads so many bytes of the client's link at most, to the front of the buffer.
pub(crate) fn read_client<W: World>(
    conn: &Conn,
    world: &mut W,
    buffer: &mut [u8],
    room: usize,
) -> LinkRead
    requires linked { Linked (W.seen world.old) conn.now }
    requires open { IsOpen conn.now }
    requires some { 0 < room }
    requires most { room ≤ length buffer.old }
    ensures seen { ReadDid (W.seen world.old) conn.now.client.link result buffer.new (W.seen world.new) }
    ensures lately { ReadLately (W.lately world.old) conn.now.client.link result (W.lately world.new) }
{
    world.read(conn.client.link, &mut buffer[..room])
}

/// Tells a connection what a read of its client's link answered. Answers whether anything came of it.
pub(crate) fn take_read(
    conn: &mut Conn,
    alloc: Global,
    buffer: &[u8],
    read: LinkRead,
) -> Result<bool, Memory>
    requires open { IsOpen conn.old }
    requires prompt { IsPrompt conn.old }
    requires within { (n : ℕ) → read ≡ LinkRead.Got n → n ≤ length buffer.now }
    ensures went { (s t : Seen) (l m : Lately) (g : Desk) → Linked s conn.old → ReadDid s conn.old.client.link read buffer.now t
        → ReadLately l conn.old.client.link read m → Went ⊥ (moment s l g conn.old) (moment t m g conn.new) }
    ensures client { conn.new.client ≡ conn.old.client }
    ensures number { conn.new.current.number ≡ conn.old.current.number }
    ensures server { KeepsServer conn.old conn.new }
    ensures prompt { OnOk result (IsPrompt conn.new) }
    ensures still { IfOk result (λ moved. moved ≡ false → (read ≡ LinkRead.NotYet) × SameWork conn.old conn.new) }
{
    match read {
        LinkRead::Got(n) => {
            conn.bytes(alloc, &buffer[..n])?;
            Ok(true)
        }
        LinkRead::NotYet => {
            conn.rest();
            Ok(false)
        }
        LinkRead::End => {
            conn.end(alloc)?;
            Ok(true)
        }
        LinkRead::Failed => {
            conn.fail();
            Ok(true)
        }
    }
}

/// Writes what is pending for the client. Answers whether anything came of it.
pub(crate) fn answer<W: World>(
    conn: &mut Conn,
    alloc: Global,
    world: &mut W,
) -> Result<bool, Memory>
    requires { Linked (W.seen world.old) conn.old }
    ensures went { (g : Desk) → Went ⊥ (moment (W.seen world.old) (W.lately world.old) g conn.old)
        (moment (W.seen world.new) (W.lately world.new) g conn.new) }
    ensures links { OnlyCloses (W.seen world.old) (W.seen world.new) }
    ensures server { KeepsServer conn.old conn.new }
    ensures prompt { IsPrompt conn.old → OnOk result (IsPrompt conn.new) }
    ensures counted { (r : ReadsOf) → Counted r (W.lately world.old) conn.old → Counted r (W.lately world.new) conn.new }
    ensures still { IfOk result (λ moved. moved ≡ false → IsOpen conn.new → Stays (W.lately world.old) (W.lately world.new) conn.old conn.new
        × (pending_of conn.new ≢ [] → (W.lately world.new).write_quiet conn.new.client.link ≡ true)) }
{
    if !conn.is_open() {
        return Ok(false);
    }
    if conn.pending().is_empty() {
        return Ok(false);
    }
    conn.reserve()?;
    send(conn, alloc, world)
}

// Writes once what is pending for the client.
fn send<W: World>(conn: &mut Conn, alloc: Global, world: &mut W) -> Result<bool, Memory>
    requires linked { Linked (W.seen world.old) conn.old }
    requires open { IsOpen conn.old }
    requires some { 0 < length (pending_of conn.old) }
    requires room { vec_len conn.old.notes < vec_capacity conn.old.notes }
    ensures went { (g : Desk) → Went ⊥ (moment (W.seen world.old) (W.lately world.old) g conn.old)
        (moment (W.seen world.new) (W.lately world.new) g conn.new) }
    ensures links { OnlyCloses (W.seen world.old) (W.seen world.new) }
    ensures server { KeepsServer conn.old conn.new }
    ensures prompt { IsPrompt conn.old → OnOk result (IsPrompt conn.new) }
    ensures counted { (r : ReadsOf) → Counted r (W.lately world.old) conn.old → Counted r (W.lately world.new) conn.new }
    ensures still { IfOk result (λ moved. moved ≡ false → Stays (W.lately world.old) (W.lately world.new) conn.old conn.new
        × ((W.lately world.new).write_quiet conn.new.client.link ≡ true)) }
{
    match world.write(conn.client.link, conn.pending()) {
        LinkWrite::Took(n) => {
            conn.took(alloc, n)?;
            Ok(true)
        }
        LinkWrite::NotYet => Ok(false),
        LinkWrite::Failed => {
            conn.fail();
            Ok(true)
        }
    }
}
