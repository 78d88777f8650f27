//! A worker's run.
ghost use Rattle.std.specs.Prelude.{◌≡◌, ◌≢◌, ◌⊎◌, ◌<◌, ◌++◌, ℕ, List, IfSome, None};
ghost use Rattle.slab.specs.Slab.{Slab, get};
ghost use Rattle.conn_machine.specs.declared.conn.Conn.{Conn};
ghost use Rattle.worker_loop.specs.Settled.{EndsOnly, StoppedAfter, IsOneLost, LosesOne};
ghost use Rattle.worker_loop.specs.Complete.{AllComplete};
ghost use Rattle.desk.specs.Desks.{Desk, Grew};
ghost use Rattle.worker_loop.specs.Accounts.{Accounts};
ghost use Rattle.worker_loop.specs.Met.{Meets, AllEnded, AllClosed, AllNamed, NotesOfClients};
ghost use Rattle.worker_loop.specs.Named.{NamesDistinct};
ghost use Rattle.worker_loop.specs.Rounds.{Leads, Parted, LastRound, RanRounds};
ghost use Rattle.link_world.specs.Log.{Event};
ghost use Rattle.link_world.specs.Seen.{Seen, Rose};
ghost use Rattle.conversation.specs.Plans.{Plan};
ghost use Rattle.conn_service.specs.Went.{extended};
ghost use Rattle.worker_loop.specs.Runs.{Attends, Runs, Stopping, IsStopping, EndsServed, Unasked};

use crate::worker::Worker;
use desk::Shared;
use link_world::World;
use std::alloc::Global;
use std::sync::Wait;

/// Why a run ended.
#[derive(Clone, Copy, Debug, PartialEq, Eq)]
pub enum WorkerEnd {
    /// A stop was asked for.
    Stopped,
    /// A wait failed, and the world's count of faults rose.
    WorldFault,
    /// Memory ran out for a note or a new connection.
    Memory,
}

/// Serves the clients that come to a world until a stop is asked for: each round is a turn, the question for a stop,
/// and a wait. Unless memory runs out, all connections are ended with notes first.
///
/// On each client connection that a worker ends, however messages, publications, pieces, replies and faults
/// interleave, the bytes sent spell the replies to its requests in order; each reply and forwarded request is the
/// meaning of one published configuration, numbered no lower than its connection had seen; 404 comes only where no
/// router matches, 503 where no child was available, 502 where its link failed or gave no reply.
pub fn run_worker<R: Wait, W: World, S: Shared>(
    rt: &R,
    alloc: Global,
    worker: &mut Worker,
    world: &mut W,
    shared: &mut S,
) -> WorkerEnd
    requires { Attends (W.seen world.old) (S.desk shared.old).generations worker.old.conns }

    // Where the world tells its log, each connection whose end this run noted was served.
    ensures served { (ran : List Event) × ((W.seen world.new).log ≡ extended (W.seen world.old).log ran)
        × IfSome (W.seen world.old).log (λ before. EndsServed (W.seen world.old) (W.seen world.new) (S.desk shared.new).generations before ran) }

    // The generations that the desk had seen come first among those that it has seen.
    ensures grew { Grew (S.desk shared.old).generations (S.desk shared.new).generations }

    // It ran in rounds: work, one question whether to stop, one wait until a link has something new. A connection was
    // ended for a stop only behind a question that was answered yes, or a wait that failed. Each event on a link carries
    // the clock's last answer before it. Where memory ran out behind such a question or wait, the end of a connection
    // wasn't noted.
    ensures rounds { (ran : List Event) × Leads (W.seen world.old) (W.seen world.new) ran
        × RanRounds (LosesOne worker.old.conns (W.seen world.old) (W.seen world.new) (S.desk shared.new).generations) result ran }

    // Whatever the answer, up to the last round each pin, look and pick of the desk is accounted for, no client is
    // forgotten, each link that isn't in use is closed, and each that was dialled is named by the note of a request or is
    // that of an open connection's request.
    ensures until { (at : W) × (held : S) × (conns : Slab Conn)
        × LastRound (LosesOne worker.old.conns (W.seen world.old) (W.seen world.new) (S.desk shared.new).generations) result (W.seen at) (W.seen world.new)
        × Grew (S.desk held).generations (S.desk shared.new).generations
        × Runs worker.old.conns (W.seen world.old) (W.seen at) (S.desk held).generations conns
        × Meets worker.old.conns (W.seen world.old) (W.seen at) conns
        × ((base : Seen) (from : Desk) → Accounts base (W.seen world.old) from (S.desk shared.old) worker.old.conns
        → Accounts base (W.seen at) from (S.desk held) conns) }

    // Notes were told on the links of clients alone, that were there at the start or came in this run.
    ensures noted { NotesOfClients worker.old.conns (W.seen world.old) (W.seen world.new) }

    // No two requests that were noted in this run name one link, on one connection or on two.
    ensures distinct { NamesDistinct (W.seen world.old) (W.seen world.new) }

    // No connection is open any more.
    ensures ended { (k : ℕ) → get worker.new.conns k ≡ None }

    // Unless memory ran out, each pin of the desk since the worker first used it is accounted for, and so is each look and
    // each pick under each number. A draw was refused only where the desk's count says so.
    ensures accounts { (base : Seen) (from : Desk) → result ≢ WorkerEnd.Memory
        → Accounts base (W.seen world.old) from (S.desk shared.old) worker.old.conns
        → Accounts base (W.seen world.new) from (S.desk shared.new) worker.new.conns }

    // Unless memory ran out, no client is forgotten: the end of each that was there at the start or came in this run was
    // noted in it.
    ensures met { result ≢ WorkerEnd.Memory → AllEnded worker.old.conns (W.seen world.old) (W.seen world.new) }

    // Unless memory ran out, each link that was in use at the start, or was given in this run, is closed.
    ensures closed { result ≢ WorkerEnd.Memory → AllClosed worker.old.conns (W.seen world.old) (W.seen world.new) }

    // Unless memory ran out, each link that was dialled in this run is named by the note of a request.
    ensures owned { result ≢ WorkerEnd.Memory → AllNamed (W.seen world.old) (W.seen world.new) }
    ensures stopped { result ≡ WorkerEnd.Stopped → Rose (W.seen world.old).stops (W.seen world.new).stops }

    // Where a stop was asked for, it was right after a turn at whose end nothing more could be done and, if no more clients
    // were there at first than may be, no more were there; then the open connections were ended. Where the answer is
    // `Memory` still, the end of one of these wasn't noted. Of a connection whose client gave whole valid requests without
    // a body and nothing else, each has its whole reply, or one of the excuses of `IsOver`; one that memory failed owes
    // nothing.
    ensures settled { (result ≡ WorkerEnd.Stopped) ⊎ ((W.seen world.old).stops < (W.seen world.new).stops) → (at : W) × (conns : Slab Conn)
        × StoppedAfter worker.old.conns (W.seen world.old) (W.seen at) (W.lately at) (W.seen world.new) (S.desk shared.new).generations conns worker.old.links
        × AllComplete (W.seen world.old) (W.seen at) (W.lately at) (W.seen world.new)
        × (result ≡ WorkerEnd.Memory → IsOneLost (W.seen at) (W.seen world.new) conns) }
    ensures unasked { result ≡ WorkerEnd.WorldFault → (W.seen world.new).stops ≡ (W.seen world.old).stops }
    ensures fault { result ≡ WorkerEnd.WorldFault → Rose (W.seen world.old).waits_failed (W.seen world.new).waits_failed }
{
    for _ in rt.forever() {
        let Ok(()) = worker.turn(rt, alloc, world, shared) else {
            worker.quit_all(alloc, world);
            return WorkerEnd::Memory;
        };
        if world.stop_asked() {
            return finish(alloc, worker, world, WorkerEnd::Stopped);
        }
        if let Err(_) = world.wait(rt, u64::MAX) {
            return finish(alloc, worker, world, WorkerEnd::WorldFault);
        }
    }
    unreachable!()
}

// Ends all connections, and answers this end.
fn finish<W: World>(alloc: Global, worker: &mut Worker, world: &mut W, end: WorkerEnd) -> WorkerEnd
    requires { IsStopping (W.seen world.old) worker.old.conns }
    ensures same { result ≢ WorkerEnd.Memory → result ≡ end }
    ensures runs { (first : Slab Conn) (base : Seen) (g : List Plan) → Stopping base (W.seen world.old)
        → Runs first base (W.seen world.old) g worker.old.conns → Runs first base (W.seen world.new) g worker.new.conns }
    ensures unasked { Unasked (W.seen world.old) (W.seen world.new) }
    ensures ends { EndsOnly (W.seen world.old) (W.seen world.new) worker.old.conns }
    ensures parted { Parted (W.seen world.old) (W.seen world.new) }
    ensures lost { end ≢ WorkerEnd.Memory → result ≡ WorkerEnd.Memory → IsOneLost (W.seen world.old) (W.seen world.new) worker.old.conns }
    ensures ended { (k : ℕ) → get worker.new.conns k ≡ None }
    ensures accounts { (base : Seen) (from to : Desk) → result ≢ WorkerEnd.Memory → Accounts base (W.seen world.old) from to worker.old.conns
        → Accounts base (W.seen world.new) from to worker.new.conns }
    ensures met { (first : Slab Conn) (base : Seen) → result ≢ WorkerEnd.Memory → Meets first base (W.seen world.old) worker.old.conns
        → Meets first base (W.seen world.new) worker.new.conns }
{
    if worker.stop_all(alloc, world) {
        end
    } else {
        WorkerEnd::Memory
    }
}
