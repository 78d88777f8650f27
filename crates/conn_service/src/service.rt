//! What a worker does with one connection in a turn, where it stops and where it finds no memory.
ghost use Rattle.std.specs.Prelude.{◌≡◌, ◌⊎◌, ◌<◌, ◌≤◌, ℕ, [], false, IsTrue, OnOk, OnErr, OnSome, IfSome};
ghost use Rattle.link_world.specs.Seen.{Seen, ReadDid};
ghost use Rattle.link_world.specs.Lately.{Lately, ReadLately};
ghost use Rattle.desk.specs.Desks.{Desk};
ghost use Rattle.conn_machine.specs.Prompt.{IsPrompt};
ghost use Rattle.conn_machine.specs.Reached.{IsOpen, IsFinished, IsEnding, EndsBy, Waits, pending_of};
ghost use Rattle.conn_service.specs.Moments.{moment, Linked, IsTracked, IsReady};
ghost use Rattle.conn_service.specs.Pins.{IsBelow};
ghost use Rattle.conn_service.specs.Went.{Went, Lost};
ghost use Rattle.conn_service.specs.Calm.{Calm};
ghost use Rattle.conn_service.specs.Farewell.{OnlyTells};
ghost use Rattle.conn_service.specs.Released.{OnlyCloses, LeavesOpen, LeavesClosed};
ghost use Rattle.conn_service.specs.Counts.{Counted};

use crate::client::{answer, read_client, room_for, take_read};
use crate::links::{hang_up, release, server_of};
use crate::turn::{ROOM, Reads, UNREAD, work};
use conn_machine::{Conn, Phase, Stage};
use desk::Shared;
use link_world::{EndCause, LinkRead, World};
use px_base::Memory;
use std::alloc::Global;
use std::sync::Wait;

/// Serves a connection until nothing moves, and tells its notes. A connection that found no memory ends; one that ended
/// has its links closed. A note that finds no memory is lost, and with it the connection, whose end is never noted.
/// What links give is read into the buffer; what it held before is of no account.
pub fn serve<R: Wait, W: World, S: Shared>(
    conn: &mut Conn,
    rt: &R,
    alloc: Global,
    world: &mut W,
    shared: &mut S,
    buffer: &mut [u8; ROOM],
) -> Result<(), Memory>
    requires ready { IsReady (W.seen world.old) (S.desk shared.old).generations conn.old }
    requires tracked { IsTracked (W.seen world.old) conn.old }
    ensures went { OnOk result (Went ⊥ (moment (W.seen world.old) (W.lately world.old) (S.desk shared.old) conn.old)
        (moment (W.seen world.new) (W.lately world.new) (S.desk shared.new) conn.new)) }
    ensures lost { OnErr result (Lost ⊥ (moment (W.seen world.old) (W.lately world.old) (S.desk shared.old) conn.old)
        (W.seen world.new) (W.lately world.new) (S.desk shared.new)) }
    ensures leaves { OnOk result (LeavesOpen (W.seen world.old) conn.old (W.seen world.new) conn.new) }
    ensures closed { OnOk result (IsFinished conn.new → LeavesClosed (W.seen world.old) conn.old (W.seen world.new)) }
    ensures ready { OnOk result (IsFinished conn.new ⊎ IsReady (W.seen world.new) (S.desk shared.new).generations conn.new) }
    ensures told { OnOk result (conn.new.notes.items ≡ []) }
    ensures calm { OnOk result (Calm (W.lately world.new) conn.new) }
{
    match idle_room(conn) {
        Some(room) => serve_idle(conn, rt, alloc, world, shared, buffer, room),
        None => serve_busy(conn, rt, alloc, world, shared, buffer),
    }
}

// Serves a connection that may have something to do.
fn serve_busy<R: Wait, W: World, S: Shared>(
    conn: &mut Conn,
    rt: &R,
    alloc: Global,
    world: &mut W,
    shared: &mut S,
    buffer: &mut [u8; ROOM],
) -> Result<(), Memory>
    requires ready { IsReady (W.seen world.old) (S.desk shared.old).generations conn.old }
    requires tracked { IsTracked (W.seen world.old) conn.old }
    ensures went { OnOk result (Went ⊥ (moment (W.seen world.old) (W.lately world.old) (S.desk shared.old) conn.old)
        (moment (W.seen world.new) (W.lately world.new) (S.desk shared.new) conn.new)) }
    ensures lost { OnErr result (Lost ⊥ (moment (W.seen world.old) (W.lately world.old) (S.desk shared.old) conn.old)
        (W.seen world.new) (W.lately world.new) (S.desk shared.new)) }
    ensures leaves { OnOk result (LeavesOpen (W.seen world.old) conn.old (W.seen world.new) conn.new) }
    ensures closed { OnOk result (IsFinished conn.new → LeavesClosed (W.seen world.old) conn.old (W.seen world.new)) }
    ensures ready { OnOk result (IsFinished conn.new ⊎ IsReady (W.seen world.new) (S.desk shared.new).generations conn.new) }
    ensures told { OnOk result (conn.new.notes.items ≡ []) }
    ensures calm { OnOk result (Calm (W.lately world.new) conn.new) }
{
    attempt(conn, rt, alloc, world, shared, buffer, UNREAD);
    close_and_tell(conn, alloc, world)
}

// Serves a connection that waits for its next request. Mostly its client gives nothing, and that is all.
fn serve_idle<R: Wait, W: World, S: Shared>(
    conn: &mut Conn,
    rt: &R,
    alloc: Global,
    world: &mut W,
    shared: &mut S,
    buffer: &mut [u8; ROOM],
    room: usize,
) -> Result<(), Memory>
    requires ready { IsReady (W.seen world.old) (S.desk shared.old).generations conn.old }
    requires tracked { IsTracked (W.seen world.old) conn.old }
    requires waits { Waits Stage.Head conn.old }
    requires pending { pending_of conn.old ≡ [] }
    requires notes { conn.old.notes.items ≡ [] }
    requires some { 0 < room }
    requires most { room ≤ 32768 }
    ensures went { OnOk result (Went ⊥ (moment (W.seen world.old) (W.lately world.old) (S.desk shared.old) conn.old)
        (moment (W.seen world.new) (W.lately world.new) (S.desk shared.new) conn.new)) }
    ensures lost { OnErr result (Lost ⊥ (moment (W.seen world.old) (W.lately world.old) (S.desk shared.old) conn.old)
        (W.seen world.new) (W.lately world.new) (S.desk shared.new)) }
    ensures leaves { OnOk result (LeavesOpen (W.seen world.old) conn.old (W.seen world.new) conn.new) }
    ensures closed { OnOk result (IsFinished conn.new → LeavesClosed (W.seen world.old) conn.old (W.seen world.new)) }
    ensures ready { OnOk result (IsFinished conn.new ⊎ IsReady (W.seen world.new) (S.desk shared.new).generations conn.new) }
    ensures told { OnOk result (conn.new.notes.items ≡ []) }
    ensures calm { OnOk result (Calm (W.lately world.new) conn.new) }
{
    let read = read_client(conn, world, buffer, room);
    match read {
        LinkRead::NotYet => {
            conn.rest();
            Ok(())
        }
        _ => {
            attempt_after(conn, rt, alloc, world, shared, buffer, read);
            close_and_tell(conn, alloc, world)
        }
    }
}

/// Ends a connection where the worker stops, closes its links and tells its notes.
pub fn stop<W: World>(conn: &mut Conn, alloc: Global, world: &mut W) -> Result<(), Memory>
    requires linked { Linked (W.seen world.old) conn.old }
    requires tracked { IsTracked (W.seen world.old) conn.old }
    ensures went { (g : Desk) → OnOk result (Went (Unit {0}) (moment (W.seen world.old) (W.lately world.old) g conn.old)
        (moment (W.seen world.new) (W.lately world.new) g conn.new)) }
    ensures lost { (g : Desk) → OnErr result (Lost (Unit {0}) (moment (W.seen world.old) (W.lately world.old) g conn.old)
        (W.seen world.new) (W.lately world.new) g) }
    ensures closed { LeavesClosed (W.seen world.old) conn.old (W.seen world.new) }
    ensures finished { OnOk result (IsFinished conn.new) }
    ensures stopped { IsOpen conn.old → OnOk result (conn.new.phase ≡ Phase.Told EndCause.Stopped) }
    ensures tells { OnlyTells (W.seen world.old) (W.seen world.new) }
{
    halt(conn, world);
    close_and_tell(conn, alloc, world)
}

/// Ends a connection where the worker found no memory, closes its links and tells its notes.
pub fn quit<W: World>(conn: &mut Conn, alloc: Global, world: &mut W) -> Result<(), Memory>
    requires linked { Linked (W.seen world.old) conn.old }
    requires tracked { IsTracked (W.seen world.old) conn.old }
    ensures went { (g : Desk) → OnOk result (Went ⊥ (moment (W.seen world.old) (W.lately world.old) g conn.old)
        (moment (W.seen world.new) (W.lately world.new) g conn.new)) }
    ensures lost { (g : Desk) → OnErr result (Lost ⊥ (moment (W.seen world.old) (W.lately world.old) g conn.old)
        (W.seen world.new) (W.lately world.new) g) }
    ensures closed { LeavesClosed (W.seen world.old) conn.old (W.seen world.new) }
    ensures stops { (W.seen world.new).stops ≡ (W.seen world.old).stops }
    ensures finished { OnOk result (IsFinished conn.new) }
{
    give_up(conn, world);
    close_and_tell(conn, alloc, world)
}

// Serves a connection after so many reads, and gives it up where it found no memory.
fn attempt<R: Wait, W: World, S: Shared>(
    conn: &mut Conn,
    rt: &R,
    alloc: Global,
    world: &mut W,
    shared: &mut S,
    buffer: &mut [u8; ROOM],
    reads: Reads,
)
    requires linked { Linked (W.seen world.old) conn.old }
    requires below { IsBelow (S.desk shared.old).generations conn.old.current.number }
    requires prompt { IsPrompt conn.old }
    requires counted { Counted reads (W.lately world.old) conn.old }
    ensures went { Went ⊥ (moment (W.seen world.old) (W.lately world.old) (S.desk shared.old) conn.old)
        (moment (W.seen world.new) (W.lately world.new) (S.desk shared.new) conn.new) }
    ensures leaves { LeavesOpen (W.seen world.old) conn.old (W.seen world.new) conn.new }
    ensures kept { IsOpen conn.new ⊎ IsEnding conn.new.phase }
    ensures calm { Calm (W.lately world.new) conn.new }
{
    let Ok(()) = work(conn, rt, alloc, world, shared, buffer, reads) else {
        give_up(conn, world);
        return;
    };
    if conn.is_open() {
        return;
    }
    give_up(conn, world);
}

// Serves a connection whose client's link was read once, with this answer, and gives it up where it found no memory.
fn attempt_after<R: Wait, W: World, S: Shared>(
    conn: &mut Conn,
    rt: &R,
    alloc: Global,
    world: &mut W,
    shared: &mut S,
    buffer: &mut [u8; ROOM],
    read: LinkRead,
)
    requires linked { Linked (W.seen world.old) conn.old }
    requires below { IsBelow (S.desk shared.old).generations conn.old.current.number }
    requires prompt { IsPrompt conn.old }
    requires waits { Waits Stage.Head conn.old }
    requires within { (n : ℕ) → read ≡ LinkRead.Got n → n ≤ 32768 }
    requires counted { Counted (record { client = 1; server = 0 }) (W.lately world.old) conn.old }
    ensures went { (s : Seen) (l : Lately) → Linked s conn.old → ReadDid s conn.old.client.link read buffer.old (W.seen world.old)
        → ReadLately l conn.old.client.link read (W.lately world.old)
        → Went ⊥ (moment s l (S.desk shared.old) conn.old) (moment (W.seen world.new) (W.lately world.new) (S.desk shared.new) conn.new) }
    ensures leaves { (s : Seen) (l : Lately) → Linked s conn.old → ReadDid s conn.old.client.link read buffer.old (W.seen world.old)
        → ReadLately l conn.old.client.link read (W.lately world.old) → LeavesOpen s conn.old (W.seen world.new) conn.new }
    ensures kept { IsOpen conn.new ⊎ IsEnding conn.new.phase }
    ensures calm { Calm (W.lately world.new) conn.new }
{
    let Ok(_) = take_read(conn, alloc, buffer, read) else {
        give_up(conn, world);
        return;
    };
    let Ok(_) = answer(conn, alloc, world) else {
        give_up(conn, world);
        return;
    };
    let reads = Reads {
        client: 1,
        server: 0,
    };
    attempt(conn, rt, alloc, world, shared, buffer, reads);
}

// Gives a connection up, and closes the link to its server. It takes no memory, and does nothing where it has ended.
fn give_up<W: World>(conn: &mut Conn, world: &mut W)
    requires { Linked (W.seen world.old) conn.old }
    ensures went { (g : Desk) → Went ⊥ (moment (W.seen world.old) (W.lately world.old) g conn.old)
        (moment (W.seen world.new) (W.lately world.new) g conn.new) }
    ensures leaves { LeavesOpen (W.seen world.old) conn.old (W.seen world.new) conn.new }
    ensures links { OnlyCloses (W.seen world.old) (W.seen world.new) }
    ensures over { IsEnding conn.new.phase }
{
    let server = server_of(conn);
    conn.give_up();
    if let Some(link) = server {
        release(conn, world, link);
    }
}

// Stops an open connection, and closes the link to its server.
fn halt<W: World>(conn: &mut Conn, world: &mut W)
    requires { Linked (W.seen world.old) conn.old }
    ensures went { (g : Desk) → Went (Unit {0}) (moment (W.seen world.old) (W.lately world.old) g conn.old)
        (moment (W.seen world.new) (W.lately world.new) g conn.new) }
    ensures leaves { LeavesOpen (W.seen world.old) conn.old (W.seen world.new) conn.new }
    ensures links { OnlyCloses (W.seen world.old) (W.seen world.new) }
    ensures over { IsEnding conn.new.phase }
    ensures stopped { IsOpen conn.old → EndsBy EndCause.Stopped conn.new.phase }
    ensures tells { OnlyTells (W.seen world.old) (W.seen world.new) }
{
    if !conn.is_open() {
        conn.give_up();
        return;
    }
    let server = server_of(conn);
    conn.stop();
    if let Some(link) = server {
        release(conn, world, link);
    }
}

// Closes the client's link, unless the connection is open, and tells the notes that wait.
fn close_and_tell<W: World>(conn: &mut Conn, alloc: Global, world: &mut W) -> Result<(), Memory>
    requires linked { Linked (W.seen world.old) conn.old }
    requires tracked { IsTracked (W.seen world.old) conn.old }
    requires kept { IsOpen conn.old ⊎ IsEnding conn.old.phase }
    ensures went { (g : Desk) → OnOk result (Went ⊥ (moment (W.seen world.old) (W.lately world.old) g conn.old)
        (moment (W.seen world.new) (W.lately world.new) g conn.new)) }
    ensures lost { (g : Desk) → OnErr result (Lost ⊥ (moment (W.seen world.old) (W.lately world.old) g conn.old)
        (W.seen world.new) (W.lately world.new) g) }
    ensures leaves { OnOk result (LeavesOpen (W.seen world.old) conn.old (W.seen world.new) conn.new) }
    ensures links { OnlyCloses (W.seen world.old) (W.seen world.new) }
    ensures closed { (IsOpen conn.old → ⊥) → (W.seen world.new).is_open conn.old.client.link ≡ false }
    ensures lately { IsOpen conn.old → W.lately world.new ≡ W.lately world.old }
    ensures told { OnOk result (conn.new.notes.items ≡ []) }
    ensures open { OnOk result (IsOpen conn.old → conn.new ≡ record conn.old { notes = conn.new.notes }) }
    ensures finished { OnOk result (IsEnding conn.old.phase → IsFinished conn.new) }
    ensures cause { (cause : EndCause) → EndsBy cause conn.old.phase → EndsBy cause conn.new.phase }
    ensures tells { OnlyTells (W.seen world.old) (W.seen world.new) }
{
    hang_up(conn, world);
    tell(conn, alloc, world)
}

// Tells the notes that wait.
fn tell<W: World>(conn: &mut Conn, alloc: Global, world: &mut W) -> Result<(), Memory>
    requires linked { Linked (W.seen world.old) conn.old }
    requires tracked { IsTracked (W.seen world.old) conn.old }
    requires kept { IsOpen conn.old ⊎ IsEnding conn.old.phase }
    ensures went { (g : Desk) → OnOk result (Went ⊥ (moment (W.seen world.old) (W.lately world.old) g conn.old)
        (moment (W.seen world.new) (W.lately world.new) g conn.new)) }
    ensures lost { (g : Desk) → OnErr result (Lost ⊥ (moment (W.seen world.old) (W.lately world.old) g conn.old)
        (W.seen world.new) (W.lately world.new) g) }
    ensures links { OnlyCloses (W.seen world.old) (W.seen world.new) }
    ensures lately { W.lately world.new ≡ W.lately world.old }
    ensures told { OnOk result (conn.new.notes.items ≡ []) }
    ensures open { OnOk result (IsOpen conn.old → conn.new ≡ record conn.old { notes = conn.new.notes }) }
    ensures finished { OnOk result (IsEnding conn.old.phase → IsFinished conn.new) }
    ensures cause { (cause : EndCause) → EndsBy cause conn.old.phase → EndsBy cause conn.new.phase }
    ensures tells { OnlyTells (W.seen world.old) (W.seen world.new) }
{
    if is_quiet(conn) {
        return Ok(());
    }
    'notes: while let Some(note) = conn.take_note(alloc) {
        world.note(note)?;
    }
    Ok(())
}

// An open connection that has no note to tell.
fn is_quiet(conn: &Conn) -> bool
    ensures open { IsTrue result → IsOpen conn.now }
    ensures none { IsTrue result → conn.now.notes.items ≡ [] }
{
    if !conn.is_open() {
        return false;
    }
    conn.notes.as_slice().is_empty()
}

// How many bytes may come to a connection that waits for its next request and owes its client nothing.
fn idle_room(conn: &Conn) -> Option<usize>
    ensures waits { OnSome result (Waits Stage.Head conn.now) }
    ensures pending { OnSome result (pending_of conn.now ≡ []) }
    ensures notes { OnSome result (conn.now.notes.items ≡ []) }
    ensures room { IfSome result (λ room. (0 < room) × (room ≤ 32768)) }
{
    if !is_quiet(conn) {
        return None;
    }
    if !conn.pending().is_empty() {
        return None;
    }
    match conn.stage {
        Stage::Head => room_for(conn, &UNREAD),
        _ => None,
    }
}
