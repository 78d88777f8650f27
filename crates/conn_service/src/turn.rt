//! A connection's links are served until nothing moves.
ghost use Rattle.std.specs.Prelude.{◌≡◌, ◌≢◌, ◌≤◌, [], ℕ, length, false, IfOk, OnOk};
ghost use Rattle.desk.specs.Desks.{Desk};
ghost use Rattle.conn_machine.specs.Prompt.{IsPrompt};
ghost use Rattle.conn_machine.specs.Reached.{IsOpen};
ghost use Rattle.conn_service.specs.Moments.{moment, Linked};
ghost use Rattle.conn_service.specs.Pins.{IsBelow};
ghost use Rattle.conn_service.specs.Went.{Went};
ghost use Rattle.conn_service.specs.Released.{OnlyCloses, LeavesOpen};
ghost use Rattle.conn_service.specs.Calm.{Calm, IsStanding};
ghost use Rattle.conn_service.specs.Counts.{Counted, Stays};

use crate::choose::choose;
use crate::client::{answer, receive};
use crate::links::{release, server_of};
use crate::server::{ask, dial, hear};
use conn_machine::{Conn, Stage};
use desk::Shared;
use link_world::World;
use px_base::Memory;
use std::alloc::{AllocError, Global};
use std::sync::Wait;

/// As many bytes of the client wait at most, and as many are read at once at most.
pub const ROOM: usize = 32_768;

/// A link is read so often at most before the next wait.
pub(crate) const READS: u32 = 64;

/// How often the client's link was read since the last wait, and how often the server's.
#[derive(Clone, Copy, Debug)]
pub(crate) struct Reads {
    pub(crate) client: u32,
    pub(crate) server: u32,
}

/// No link was read yet.
pub(crate) const UNREAD: Reads = Reads {
    client: 0,
    server: 0,
};

/// Serves an open connection until nothing moves, after so many reads. What links give is read into the buffer.
pub(crate) fn work<R: Wait, W: World, S: Shared>(
    conn: &mut Conn,
    rt: &R,
    alloc: Global,
    world: &mut W,
    shared: &mut S,
    buffer: &mut [u8; ROOM],
    mut reads: Reads,
) -> Result<(), Memory>
    requires linked { Linked (W.seen world.old) conn.old }
    requires below { IsBelow (S.desk shared.old).generations conn.old.current.number }
    requires prompt { IsPrompt conn.old }
    requires counted { Counted reads (W.lately world.old) conn.old }
    ensures went { Went ⊥ (moment (W.seen world.old) (W.lately world.old) (S.desk shared.old) conn.old)
        (moment (W.seen world.new) (W.lately world.new) (S.desk shared.new) conn.new) }
    ensures leaves { LeavesOpen (W.seen world.old) conn.old (W.seen world.new) conn.new }
    ensures calm { OnOk result (Calm (W.lately world.new) conn.new) }
{
    for _ in rt.forever() {
        if !conn.is_open() {
            return Ok(());
        }
        if !round(conn, rt, alloc, world, shared, buffer, &mut reads)? {
            return Ok(());
        }
    }
    unreachable!()
}

// Chooses for a request that waits for it, else serves each link once. Answers whether anything moved.
fn round<R: Wait, W: World, S: Shared>(
    conn: &mut Conn,
    rt: &R,
    alloc: Global,
    world: &mut W,
    shared: &mut S,
    buffer: &mut [u8],
    reads: &mut Reads,
) -> Result<bool, Memory>
    requires linked { Linked (W.seen world.old) conn.old }
    requires below { IsBelow (S.desk shared.old).generations conn.old.current.number }
    requires prompt { IsPrompt conn.old }
    requires open { IsOpen conn.old }
    requires buffer { length buffer.old ≡ 32768 }
    requires counted { Counted reads.old (W.lately world.old) conn.old }
    ensures went { Went ⊥ (moment (W.seen world.old) (W.lately world.old) (S.desk shared.old) conn.old)
        (moment (W.seen world.new) (W.lately world.new) (S.desk shared.new) conn.new) }
    ensures leaves { LeavesOpen (W.seen world.old) conn.old (W.seen world.new) conn.new }
    ensures prompt { OnOk result (IsPrompt conn.new) }
    ensures counted { OnOk result (Counted reads.new (W.lately world.new) conn.new) }
    ensures calm { IfOk result (λ moved. moved ≡ false → Calm (W.lately world.new) conn.new) }
{
    match conn.stage {
        Stage::Head => listen(conn, alloc, world, buffer, reads),
        Stage::Exchange => pass(conn, alloc, world, buffer, reads),
        Stage::Reply => pass(conn, alloc, world, buffer, reads),
        Stage::Pin => {
            choose(conn, rt, alloc, shared)?;
            dial(conn, alloc, world)?;
            reads.server = 0;
            Ok(true)
        }
        // Nothing stays there: each choice is made at once.
        _ => Err(AllocError),
    }
}

// Serves the client's link once, where no server's is in use.
fn listen<W: World>(
    conn: &mut Conn,
    alloc: Global,
    world: &mut W,
    buffer: &mut [u8],
    reads: &mut Reads,
) -> Result<bool, Memory>
    requires linked { Linked (W.seen world.old) conn.old }
    requires buffer { length buffer.old ≡ 32768 }
    requires stage { conn.old.stage ≡ Stage.Head }
    requires prompt { IsPrompt conn.old }
    requires counted { Counted reads.old (W.lately world.old) conn.old }
    ensures went { (g : Desk) → Went ⊥ (moment (W.seen world.old) (W.lately world.old) g conn.old)
        (moment (W.seen world.new) (W.lately world.new) g conn.new) }
    ensures links { OnlyCloses (W.seen world.old) (W.seen world.new) }
    ensures prompt { OnOk result (IsPrompt conn.new) }
    ensures counted { Counted reads.new (W.lately world.new) conn.new }
    ensures calm { IfOk result (λ moved. moved ≡ false → Calm (W.lately world.new) conn.new) }
{
    let received = receive(conn, alloc, world, buffer, reads)?;
    let answered = answer(conn, alloc, world)?;
    Ok(either(received, answered))
}

// Serves each link once, and closes the link to a server whose exchange is over.
fn pass<W: World>(
    conn: &mut Conn,
    alloc: Global,
    world: &mut W,
    buffer: &mut [u8],
    reads: &mut Reads,
) -> Result<bool, Memory>
    requires linked { Linked (W.seen world.old) conn.old }
    requires buffer { length buffer.old ≡ 32768 }
    requires stage { IsStanding conn.old.stage }
    requires prompt { IsPrompt conn.old }
    requires counted { Counted reads.old (W.lately world.old) conn.old }
    ensures went { (g : Desk) → Went ⊥ (moment (W.seen world.old) (W.lately world.old) g conn.old)
        (moment (W.seen world.new) (W.lately world.new) g conn.new) }
    ensures leaves { LeavesOpen (W.seen world.old) conn.old (W.seen world.new) conn.new }
    ensures prompt { OnOk result (IsPrompt conn.new) }
    ensures counted { Counted reads.new (W.lately world.new) conn.new }
    ensures calm { IfOk result (λ moved. moved ≡ false → Calm (W.lately world.new) conn.new) }
{
    match server_of(conn) {
        None => pass_once(conn, alloc, world, buffer, reads),
        Some(link) => {
            let moved = pass_once(conn, alloc, world, buffer, reads);
            release(conn, world, link);
            moved
        }
    }
}

// Serves each link once.
fn pass_once<W: World>(
    conn: &mut Conn,
    alloc: Global,
    world: &mut W,
    buffer: &mut [u8],
    reads: &mut Reads,
) -> Result<bool, Memory>
    requires linked { Linked (W.seen world.old) conn.old }
    requires buffer { length buffer.old ≡ 32768 }
    requires stage { IsStanding conn.old.stage }
    requires prompt { IsPrompt conn.old }
    requires counted { Counted reads.old (W.lately world.old) conn.old }
    ensures went { (g : Desk) → Went ⊥ (moment (W.seen world.old) (W.lately world.old) g conn.old)
        (moment (W.seen world.new) (W.lately world.new) g conn.new) }
    ensures links { OnlyCloses (W.seen world.old) (W.seen world.new) }
    ensures prompt { OnOk result (IsPrompt conn.new) }
    ensures counted { Counted reads.new (W.lately world.new) conn.new }
    ensures calm { IfOk result (λ moved. moved ≡ false → Calm (W.lately world.new) conn.new) }
{
    let received = receive(conn, alloc, world, buffer, reads)?;
    let asked = ask(conn, alloc, world)?;
    let heard = hear(conn, alloc, world, buffer, reads)?;
    let answered = answer(conn, alloc, world)?;
    Ok(any(received, asked, heard, answered))
}

// One of the two holds.
fn either(received: bool, answered: bool) -> bool
    ensures { result ≡ false → (received ≡ false) × (answered ≡ false) }
{
    received || answered
}

// One of these holds.
fn any(received: bool, asked: bool, heard: bool, answered: bool) -> bool
    ensures { result ≡ false → (received ≡ false) × (asked ≡ false) × (heard ≡ false) × (answered ≡ false) }
{
    received || asked || heard || answered
}
