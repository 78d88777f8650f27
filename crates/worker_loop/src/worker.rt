//! A worker's turn.
ghost use Rattle.std.specs.Prelude.{◌≡◌, ◌≢◌, ◌≤◌, ◌+◌, ℕ, List, OnOk, OnErr, IfOk, IfSome, IfNone, None, true, false};
ghost use Rattle.slab.specs.Slab.{get, slab_len, Slab as Slots};
ghost use Rattle.conn_machine.specs.declared.conn.Conn.{Conn as Connection};
ghost use Rattle.worker_loop.specs.Met.{Meets};
ghost use Rattle.link_world.specs.Seen.{Seen, CloseDid};
ghost use Rattle.link_world.specs.Lately.{OnlyAt};
ghost use Rattle.conversation.specs.Plans.{Plan};
ghost use Rattle.worker_loop.specs.Runs.{Attends, Attended, Runs, JustCame};
ghost use Rattle.desk.specs.Desks.{Desk, Grew};
ghost use Rattle.worker_loop.specs.Accounts.{Accounts};
ghost use Rattle.worker_loop.specs.Rounds.{Worked};
ghost use Rattle.worker_loop.specs.Settled.{SettledUnder, AllSettled, TurnDone, SameTurn};

use conn_machine::Conn;
use conn_service::ROOM;
use desk::Shared;
use link_world::{Arrival, World};
use px_base::Memory;
use slab::Slab;
use std::alloc::{AllocError, Global};
use std::sync::Wait;

/// The most client links that a worker has at a time.
pub const MOST_LINKS: u32 = 4096;

/// Serves client connections.
#[derive(Drop)]
pub struct Worker {
    pub conns: Slab<Conn>,
    /// The most client links at a time.
    pub links: usize,
    /// What a link gives is read into it.
    pub(crate) buffer: Box<[u8; ROOM]>,
}

impl Worker {
    /// A worker without connections, for at most so many client links at a time. The links that it dials for them
    /// aren't counted.
    pub fn new(alloc: Global, links: u32) -> Result<Worker, Memory>
        requires { links ≤ 4096 }
        ensures empty { IfOk result (λ worker. (k : ℕ) → get worker.conns k ≡ None) }
        ensures attends { (now : Seen) (generations : List Plan) → IfOk result (λ worker. Attends now generations worker.conns) }
        ensures links { IfOk result (λ worker. worker.links ≡ links) }
        ensures most { IfOk result (λ worker. slab_len worker.conns ≤ worker.links) }
        ensures accounts { (now : Seen) (desk : Desk) → IfOk result (λ worker. Accounts now now desk desk worker.conns) }
    {
        let mut conns = Slab::new(alloc);
        conns.reserve(links as usize)?;
        let Ok(buffer) = Box::new(alloc, [0; ROOM]) else {
            return Err(AllocError);
        };
        Ok(Worker {
            conns,
            links: links as usize,
            buffer,
        })
    }

    /// Serves each connection, takes the clients that come while it has fewer than it may, and serves each of these at
    /// once. An `Err` says that memory ran out for a note or a new connection.
    pub fn turn<R: Wait, W: World, S: Shared>(
        &mut self,
        rt: &R,
        alloc: Global,
        world: &mut W,
        shared: &mut S,
    ) -> Result<(), Memory>
        requires { Attends (W.seen world.old) (S.desk shared.old).generations self.old.conns }

        // Whatever run led here goes on: each connection whose end it notes was served, and notes stand on links of clients.
        ensures runs { (first : Slots Connection) (base : Seen) → Runs first base (W.seen world.old) (S.desk shared.old).generations self.old.conns
            → Runs first base (W.seen world.new) (S.desk shared.new).generations self.new.conns }
        ensures stops { (W.seen world.new).stops ≡ (W.seen world.old).stops }
        ensures grew { Grew (S.desk shared.old).generations (S.desk shared.new).generations }

        // The clock was asked and links were used, but nothing was waited for, no stop was asked about and none was told.
        ensures worked { Worked (W.seen world.old) (W.seen world.new) }
        ensures links { self.new.links ≡ self.old.links }

        // No more clients are served at a time than may be.
        ensures most { slab_len self.old.conns ≤ self.old.links → slab_len self.new.conns ≤ self.new.links }

        // Each pin of the desk since the worker first used it is accounted for, and so is each look and each pick under each
        // number. A draw was refused only where the desk's count says so.
        ensures accounts { (base : Seen) (from : Desk) → OnOk result (Accounts base (W.seen world.old) from (S.desk shared.old) self.old.conns
            → Accounts base (W.seen world.new) from (S.desk shared.new) self.new.conns) }

        // No client is forgotten, no link is left open that isn't in use, and none was dialled but for a request.
        ensures met { (first : Slots Connection) (base : Seen) → OnOk result (Meets first base (W.seen world.old) self.old.conns
            → Meets first base (W.seen world.new) self.new.conns) }
        ensures done { OnOk result (TurnDone (W.lately world.new) self.new.conns self.new.links) }
    {
        let _ = world.now();
        self.serve_all(rt, alloc, world, shared)?;
        for _ in rt.forever() {
            if self.conns.len() >= self.links {
                return Ok(());
            }
            if !self.welcome(rt, alloc, world, shared)? {
                return Ok(());
            }
        }
        unreachable!()
    }

    // Serves each connection. It looks at no key past the last that has one.
    fn serve_all<R: Wait, W: World, S: Shared>(
        &mut self,
        rt: &R,
        alloc: Global,
        world: &mut W,
        shared: &mut S,
    ) -> Result<(), Memory>
        requires { Attends (W.seen world.old) (S.desk shared.old).generations self.old.conns }
        ensures runs { (first : Slots Connection) (base : Seen) → Runs first base (W.seen world.old) (S.desk shared.old).generations self.old.conns
            → Runs first base (W.seen world.new) (S.desk shared.new).generations self.new.conns }
        ensures stops { (W.seen world.new).stops ≡ (W.seen world.old).stops }
        ensures grew { Grew (S.desk shared.old).generations (S.desk shared.new).generations }
        ensures worked { Worked (W.seen world.old) (W.seen world.new) }
        ensures links { self.new.links ≡ self.old.links }
        ensures fewer { slab_len self.new.conns ≤ slab_len self.old.conns }
        ensures turn { SameTurn (W.lately world.old) (W.lately world.new) }
        ensures accounts { (base : Seen) (from : Desk) → OnOk result (Accounts base (W.seen world.old) from (S.desk shared.old) self.old.conns
            → Accounts base (W.seen world.new) from (S.desk shared.new) self.new.conns) }
        ensures met { (first : Slots Connection) (base : Seen) → OnOk result (Meets first base (W.seen world.old) self.old.conns
            → Meets first base (W.seen world.new) self.new.conns) }
        ensures settled { OnOk result (AllSettled (W.lately world.new) self.new.conns) }
    {
        let mut left = self.conns.len();
        let end = self.conns.capacity();
        for key in 0..end {
            if left == 0 {
                return Ok(());
            }
            if self.serve_key(rt, alloc, key, world, shared)? {
                left -= 1;
            }
        }
        Ok(())
    }

    // Takes a client that comes, and serves it. Answers whether one came.
    fn welcome<R: Wait, W: World, S: Shared>(
        &mut self,
        rt: &R,
        alloc: Global,
        world: &mut W,
        shared: &mut S,
    ) -> Result<bool, Memory>
        requires { Attends (W.seen world.old) (S.desk shared.old).generations self.old.conns }
        ensures runs { (first : Slots Connection) (base : Seen) → Runs first base (W.seen world.old) (S.desk shared.old).generations self.old.conns
            → Runs first base (W.seen world.new) (S.desk shared.new).generations self.new.conns }
        ensures stops { (W.seen world.new).stops ≡ (W.seen world.old).stops }
        ensures grew { Grew (S.desk shared.old).generations (S.desk shared.new).generations }
        ensures worked { Worked (W.seen world.old) (W.seen world.new) }
        ensures links { self.new.links ≡ self.old.links }
        ensures more { slab_len self.new.conns ≤ slab_len self.old.conns + 1 }
        ensures clocked { (W.lately world.new).clocked ≡ (W.lately world.old).clocked }
        ensures none { IfOk result (λ came. came ≡ false → (W.lately world.new).no_more ≡ true) }
        ensures accounts { (base : Seen) (from : Desk) → OnOk result (Accounts base (W.seen world.old) from (S.desk shared.old) self.old.conns
            → Accounts base (W.seen world.new) from (S.desk shared.new) self.new.conns) }
        ensures met { (first : Slots Connection) (base : Seen) → OnOk result (Meets first base (W.seen world.old) self.old.conns
            → Meets first base (W.seen world.new) self.new.conns) }
        ensures settled { OnOk result (AllSettled (W.lately world.old) self.old.conns → AllSettled (W.lately world.new) self.new.conns) }
    {
        let Some(key) = self.accept(alloc, world)? else {
            return Ok(false);
        };
        self.serve_key(rt, alloc, key, world, shared)?;
        Ok(true)
    }

    // Takes a client that comes, once there is room for it. Answers its key.
    fn accept<W: World>(&mut self, alloc: Global, world: &mut W) -> Result<Option<usize>, Memory>
        requires { Attended (W.seen world.old) self.old.conns }
        ensures runs { (first : Slots Connection) (base : Seen) (g : List Plan) → Runs first base (W.seen world.old) g self.old.conns
            → Runs first base (W.seen world.new) g self.new.conns }
        ensures accounts { (base : Seen) (from f : Desk) → OnOk result (Accounts base (W.seen world.old) from f self.old.conns
            → Accounts base (W.seen world.new) from f self.new.conns) }
        ensures met { (first : Slots Connection) (base : Seen) → OnOk result (Meets first base (W.seen world.old) self.old.conns
            → Meets first base (W.seen world.new) self.new.conns) }
        ensures stops { (W.seen world.new).stops ≡ (W.seen world.old).stops }
        ensures worked { Worked (W.seen world.old) (W.seen world.new) }
        ensures links { self.new.links ≡ self.old.links }
        ensures more { slab_len self.new.conns ≤ slab_len self.old.conns + 1 }
        ensures clocked { (W.lately world.new).clocked ≡ (W.lately world.old).clocked }
        ensures none { IfOk result (λ key. IfNone key ((W.lately world.new).no_more ≡ true)) }
        ensures kept { IfOk result (λ key. IfNone key (AllSettled (W.lately world.old) self.old.conns → AllSettled (W.lately world.new) self.new.conns)) }
        ensures settled { IfOk result (λ key. IfSome key (λ key. AllSettled (W.lately world.old) self.old.conns
            → (k : ℕ) → k ≢ key → SettledUnder (W.lately world.new) self.new.conns k)) }
    {
        self.conns.reserve(1)?;
        let Some(client) = world.arrival()? else {
            return Ok(None);
        };
        let conn = begin(alloc, world, &client)?;
        let key = self.conns.insert_reserved(conn);
        Ok(Some(key))
    }
}

// The connection of a client that came. Where it finds no memory the client's link is closed.
fn begin<W: World>(alloc: Global, world: &mut W, client: &Arrival) -> Result<Conn, Memory>
    ensures began { IfOk result (JustCame client.now) }
    ensures same { OnOk result (W.seen world.new ≡ W.seen world.old) }
    ensures closed { OnErr result (CloseDid (W.seen world.old) client.now.link (W.seen world.new)) }
    ensures only { OnlyAt client.now.link (W.lately world.old) (W.lately world.new) }
    ensures lately { OnOk result (W.lately world.new ≡ W.lately world.old) }
{
    let Ok(conn) = Conn::new(alloc, client.link, client.entry.as_slice(), client.peer) else {
        world.close(client.link);
        return Err(AllocError);
    };
    Ok(conn)
}
