// A worker's connections, by their keys in its slab.
ghost use Rattle.std.specs.Prelude.{◌≡◌, ◌≢◌, ◌≤◌, ℕ, List, OnOk, OnErr, IfOk, IsOk, IsErr, None, Some, true, false, is_some};
ghost use Rattle.link_world.specs.Seen.{Seen};
ghost use Rattle.conversation.specs.Plans.{Plan};
ghost use Rattle.desk.specs.Desks.{Grew};
ghost use Rattle.slab.specs.Slab.{get, slab_len, Slab};
ghost use Rattle.conn_machine.specs.declared.conn.Conn.{Conn};
ghost use Rattle.worker_loop.specs.Met.{Meets};
ghost use Rattle.worker_loop.specs.Runs.{Attends, Attended, Runs, Stopping, IsStopping, Unasked};
ghost use Rattle.desk.specs.Desks.{Desk};
ghost use Rattle.worker_loop.specs.Accounts.{Accounts};
ghost use Rattle.worker_loop.specs.Rounds.{Worked, Parted};
ghost use Rattle.worker_loop.specs.Settled.{SettledUnder, SameTurn, EndsOnly, IsUnnoted, IsOneLost};

use crate::worker::Worker;
use conn_service::{quit, serve, stop};
use desk::Shared;
use link_world::World;
use px_base::Memory;
use std::alloc::Global;
use std::sync::Wait;

impl Worker {
    /// Serves the connection under a key, if there is one, and answers whether there was. It is gone where it has
    /// ended, and where a note of it is lost.
    pub(crate) fn serve_key<R: Wait, W: World, S: Shared>(
        &mut self,
        rt: &R,
        alloc: Global,
        key: usize,
        world: &mut W,
        shared: &mut S,
    ) -> Result<bool, Memory>
        requires { Attends (W.seen world.old) (S.desk shared.old).generations self.old.conns }
        ensures runs { (first : Slab Conn) (base : Seen) → Runs first base (W.seen world.old) (S.desk shared.old).generations self.old.conns
            → Runs first base (W.seen world.new) (S.desk shared.new).generations self.new.conns }
        ensures stops { (W.seen world.new).stops ≡ (W.seen world.old).stops }
        ensures grew { Grew (S.desk shared.old).generations (S.desk shared.new).generations }
        ensures worked { Worked (W.seen world.old) (W.seen world.new) }
        ensures links { self.new.links ≡ self.old.links }
        ensures found { IfOk result (λ found. found ≡ is_some (get self.old.conns key)) }
        ensures fewer { slab_len self.new.conns ≤ slab_len self.old.conns }
        ensures others { (k : ℕ) → k ≢ key → get self.new.conns k ≡ get self.old.conns k }
        ensures turn { SameTurn (W.lately world.old) (W.lately world.new) }
        ensures accounts { (base : Seen) (from : Desk) → OnOk result (Accounts base (W.seen world.old) from (S.desk shared.old) self.old.conns
            → Accounts base (W.seen world.new) from (S.desk shared.new) self.new.conns) }
        ensures met { (first : Slab Conn) (base : Seen) → OnOk result (Meets first base (W.seen world.old) self.old.conns
            → Meets first base (W.seen world.new) self.new.conns) }
        ensures settled { OnOk result ((k : ℕ) → (k ≢ key → SettledUnder (W.lately world.old) self.old.conns k)
            → SettledUnder (W.lately world.new) self.new.conns k) }
    {
        // It stays in its place: it is too large to be moved at each turn.
        let Some(conn) = self.conns.get_mut(key) else {
            return Ok(false);
        };
        if let Err(lost) = serve(conn, rt, alloc, world, shared, &mut *self.buffer) {
            self.forget(key);
            return Err(lost);
        }
        if conn.is_finished() {
            self.forget(key);
        }
        Ok(true)
    }

    // Lets the connection under a key go.
    fn forget(&mut self, key: usize)
        ensures gone { get self.new.conns key ≡ None }
        ensures others { (k : ℕ) → k ≢ key → get self.new.conns k ≡ get self.old.conns k }
        ensures links { self.new.links ≡ self.old.links }
        ensures fewer { slab_len self.new.conns ≤ slab_len self.old.conns }
    {
        let _ = self.conns.try_remove(key);
    }

    // Ends the connection under a key, if there is one, where the worker stops.
    fn stop_key<W: World>(&mut self, alloc: Global, key: usize, world: &mut W) -> Result<(), Memory>
        requires { IsStopping (W.seen world.old) self.old.conns }
        ensures runs { (first : Slab Conn) (base : Seen) (g : List Plan) → Stopping base (W.seen world.old)
            → Runs first base (W.seen world.old) g self.old.conns → Runs first base (W.seen world.new) g self.new.conns × Stopping base (W.seen world.new) }
        ensures unasked { Unasked (W.seen world.old) (W.seen world.new) }
        ensures ends { EndsOnly (W.seen world.old) (W.seen world.new) self.old.conns }
        ensures parted { Parted (W.seen world.old) (W.seen world.new) }
        ensures lost { OnErr result ((c : Conn) × (get self.old.conns key ≡ Some c) × IsUnnoted (W.seen world.old) (W.seen world.new) c.client.link) }
        ensures alone { (k : ℕ) (c : Conn) → k ≢ key → get self.old.conns k ≡ Some c → IsUnnoted (W.seen world.old) (W.seen world.new) c.client.link }
        ensures gone { get self.new.conns key ≡ None }
        ensures others { (k : ℕ) → k ≢ key → get self.new.conns k ≡ get self.old.conns k }
        ensures accounts { (base : Seen) (from to : Desk) → OnOk result (Accounts base (W.seen world.old) from to self.old.conns
            → Accounts base (W.seen world.new) from to self.new.conns) }
        ensures met { (first : Slab Conn) (base : Seen) → OnOk result (Meets first base (W.seen world.old) self.old.conns
            → Meets first base (W.seen world.new) self.new.conns) }
    {
        let Some(mut conn) = self.conns.try_remove(key) else {
            return Ok(());
        };
        stop(&mut conn, alloc, world)?;
        let finished = conn.is_finished();
        prove!(finished);
        Ok(())
    }

    /// Ends all connections, each whatever became of the others. Answers whether each note found room; where one didn't, the
    /// end of a connection isn't noted.
    pub(crate) fn stop_all<W: World>(&mut self, alloc: Global, world: &mut W) -> bool
        requires { IsStopping (W.seen world.old) self.old.conns }
        ensures runs { (first : Slab Conn) (base : Seen) (g : List Plan) → Stopping base (W.seen world.old)
            → Runs first base (W.seen world.old) g self.old.conns → Runs first base (W.seen world.new) g self.new.conns }
        ensures unasked { Unasked (W.seen world.old) (W.seen world.new) }
        ensures ends { EndsOnly (W.seen world.old) (W.seen world.new) self.old.conns }
        ensures parted { Parted (W.seen world.old) (W.seen world.new) }
        ensures lost { result ≡ false → IsOneLost (W.seen world.old) (W.seen world.new) self.old.conns }
        ensures ended { (k : ℕ) → get self.new.conns k ≡ None }
        ensures accounts { (base : Seen) (from to : Desk) → result ≡ true → Accounts base (W.seen world.old) from to self.old.conns
            → Accounts base (W.seen world.new) from to self.new.conns }
        ensures met { (first : Slab Conn) (base : Seen) → result ≡ true → Meets first base (W.seen world.old) self.old.conns
            → Meets first base (W.seen world.new) self.new.conns }
    {
        let mut all = true;
        let end = self.conns.capacity();
        for key in 0..end {
            let told = self.stop_key(alloc, key, world);
            all = are_told(told, all);
        }
        all
    }

    // Ends the connection under a key, if there is one, where memory runs out.
    fn quit_key<W: World>(&mut self, alloc: Global, key: usize, world: &mut W) -> Result<(), Memory>
        requires { Attended (W.seen world.old) self.old.conns }
        ensures runs { (first : Slab Conn) (base : Seen) (g : List Plan) → Runs first base (W.seen world.old) g self.old.conns
            → Runs first base (W.seen world.new) g self.new.conns }
        ensures worked { Worked (W.seen world.old) (W.seen world.new) }
        ensures stops { (W.seen world.new).stops ≡ (W.seen world.old).stops }
        ensures gone { get self.new.conns key ≡ None }
        ensures others { (k : ℕ) → k ≢ key → get self.new.conns k ≡ get self.old.conns k }
    {
        let Some(mut conn) = self.conns.try_remove(key) else {
            return Ok(());
        };
        quit(&mut conn, alloc, world)?;
        let finished = conn.is_finished();
        prove!(finished);
        Ok(())
    }

    /// Ends all connections where memory runs out.
    pub(crate) fn quit_all<W: World>(&mut self, alloc: Global, world: &mut W)
        requires { Attended (W.seen world.old) self.old.conns }
        ensures runs { (first : Slab Conn) (base : Seen) (g : List Plan) → Runs first base (W.seen world.old) g self.old.conns
            → Runs first base (W.seen world.new) g self.new.conns }
        ensures worked { Worked (W.seen world.old) (W.seen world.new) }
        ensures stops { (W.seen world.new).stops ≡ (W.seen world.old).stops }
        ensures ended { (k : ℕ) → get self.new.conns k ≡ None }
    {
        let end = self.conns.capacity();
        for key in 0..end {
            let _ = self.quit_key(alloc, key, world);
        }
    }
}

// Whether these notes are told, and those before.
fn are_told(told: Result<(), Memory>, all: bool) -> bool
    ensures told { result ≡ true → IsOk told }
    ensures all { result ≡ true → all ≡ true }
    ensures lost { result ≡ false → all ≡ true → IsErr told }
{
    told.is_ok() && all
}
