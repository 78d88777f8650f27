//! A worker that runs by what was published.
ghost use Rattle.std.specs.Prelude.{◌≡◌, ◌≢◌, ◌⊎◌, [], Some, None, IfOk, IfSome, IfNone, OnErr, Option, option_map, List, ℕ};
ghost use Rattle.px_base.specs.Bytes.{Rose};
ghost use Rattle.conversation.specs.Plans.{Plan};
ghost use Rattle.desk.specs.Kept.{desk_of};
ghost use Rattle.serve_cmd.specs.Ran.{IsMoment, Ran, Served, WasBegun, WasCut, IsStatus};
ghost use Rattle.serve_cmd.specs.Ready.{IsReady, IsUnused};

use crate::begin::{Beginning, begin};
use crate::loading::Stop;
use desk::{FinalDesk, OneDesk};
use link_world::World;
use publisher::Files;
use px_base::{Bytes, Memory, Sink};
use rule_eval::PatternShop;
use std::alloc::Global;
use std::sync::Wait;
use worker_loop::{Worker, WorkerEnd, run_worker};

/// The most client links of a worker at a time. More wait until one of these is closed.
const CLIENT_LINKS: u32 = 256;

/// What came of a call.
#[derive(Drop)]
pub(crate) struct Outcome {
    pub status: u8,
    /// The end of the worker, if one ran.
    pub end: Option<WorkerEnd>,
    /// The desk that it used.
    pub desk: Option<OneDesk>,
    /// The number of the last generation that was published.
    pub published: u64,
}

/// A worker that ended.
#[derive(Drop)]
pub(crate) struct Finished {
    pub end: WorkerEnd,
    /// The desk that it used.
    pub desk: OneDesk,
}

/// Loads the file with this path, publishes and writes what it means, and runs a worker by it.
pub(crate) fn serve_over<R: Wait, W: World, F: Files, K: Sink, S: PatternShop>(
    rt: &R,
    alloc: Global,
    path: &Option<Bytes>,
    world: &mut W,
    files: &mut F,
    out: &mut K,
    shop: &mut S,
) -> Outcome
    ensures ran { IfSome result.end (λ end. Ran (IsMoment W.seen W.lately) path.now (F.loads files.old) (F.loads files.new)
        (S.refusals shop.old) (S.refusals shop.new) (K.held out.old) (K.held out.new)
        (W.seen world.old) (W.seen world.new) (option_map desk_of result.desk) end result.published) }
    ensures idle { IfNone result.end (W.seen world.new ≡ W.seen world.old) }
    ensures status { IsStatus result.end result.status }
    ensures unread { result.status ≡ 5 → Rose (F.faults files.old) (F.faults files.new) }
    ensures unwritten { result.status ≡ 6 → Rose (K.faults out.old) (K.faults out.new) }
    ensures silent { result.status ≡ 5 → K.held out.new ≡ K.held out.old }
    ensures cut { result.status ≡ 6 → WasCut path.now (F.loads files.old) (F.loads files.new) (S.refusals shop.old) (S.refusals shop.new)
        (K.held out.old) (K.held out.new) }
    ensures undesked { IfNone result.end (result.desk ≡ None) }
    ensures short { IfNone result.end (result.status ≡ 7 → (K.held out.new ≡ K.held out.old)
        ⊎ ((plans : List Plan) × WasBegun path.now (F.loads files.old) (F.loads files.new) (S.refusals shop.old) (S.refusals shop.new)
        (K.held out.old) (K.held out.new) plans result.published)) }
{
    match begin(alloc, path, files, out, shop) {
        Ok(begun) => run_begun(rt, alloc, begun, world),
        Err(Stop::Load) => idle(5),
        Err(Stop::Write) => idle(6),
        Err(Stop::Memory) => idle(7),
    }
}

// No worker ran.
fn idle(status: u8) -> Outcome
    ensures { result ≡ record { status = status; end = None; desk = None; published = 0 } }
{
    Outcome {
        status,
        end: None,
        desk: None,
        published: 0,
    }
}

fn run_begun<R: Wait, W: World>(rt: &R, alloc: Global, begun: Beginning, world: &mut W) -> Outcome
    requires { IsReady begun.desk begun.published }
    ensures served { IfSome result.end (Served (IsMoment W.seen W.lately) (desk_of begun.desk).generations result.published
        (W.seen world.old) (W.seen world.new) (option_map desk_of result.desk)) }
    ensures idle { IfNone result.end (W.seen world.new ≡ W.seen world.old) }
    ensures status { IsStatus result.end result.status }
    ensures worked { (result.status ≢ 5) × (result.status ≢ 6) }
    ensures published { result.published ≡ begun.published }
    ensures undesked { IfNone result.end (result.desk ≡ None) }
{
    let Beginning {
        desk,
        published,
        ..
    } = begun;
    if published == 0 {
        run_final(rt, alloc, FinalDesk::<0>::new(desk), world)
    } else {
        run_final(rt, alloc, FinalDesk::<1>::new(desk), world)
    }
}

// Nothing more is published.
fn run_final<R: Wait, W: World, const LAST: u64>(
    rt: &R,
    alloc: Global,
    desk: FinalDesk<LAST>,
    world: &mut W,
) -> Outcome
    requires { IsUnused (desk_of desk.desk) }
    ensures served { IfSome result.end (Served (IsMoment W.seen W.lately) (desk_of desk.entry.desk).generations result.published
        (W.seen world.old) (W.seen world.new) (option_map desk_of result.desk)) }
    ensures idle { IfNone result.end (W.seen world.new ≡ W.seen world.old) }
    ensures status { IsStatus result.end result.status }
    ensures worked { (result.status ≢ 5) × (result.status ≢ 6) }
    ensures published { result.published ≡ LAST }
    ensures undesked { IfNone result.end (result.desk ≡ None) }
{
    match run_first(rt, alloc, desk, world) {
        Ok(finished) => Outcome {
            status: status_of(finished.end),
            end: Some(finished.end),
            desk: Some(finished.desk),
            published: LAST,
        },
        Err(_) => Outcome {
            status: 7,
            end: None,
            desk: None,
            published: LAST,
        },
    }
}

fn status_of(end: WorkerEnd) -> u8
    ensures status { IsStatus (Some end) result }
    ensures worked { (result ≢ 5) × (result ≢ 6) }
{
    match end {
        WorkerEnd::Stopped => 0,
        WorkerEnd::WorldFault => 10,
        WorkerEnd::Memory => 7,
    }
}

// Runs a worker until it ends.
fn run_first<R: Wait, W: World, const LAST: u64>(
    rt: &R,
    alloc: Global,
    mut desk: FinalDesk<LAST>,
    world: &mut W,
) -> Result<Finished, Memory>
    requires { IsUnused (desk_of desk.desk) }
    ensures served { IfOk result (λ f. Served (IsMoment W.seen W.lately) (desk_of desk.entry.desk).generations LAST
        (W.seen world.old) (W.seen world.new) (Some (desk_of f.desk)) f.end) }
    ensures idle { OnErr result (W.seen world.new ≡ W.seen world.old) }
{
    let mut worker = Worker::new(alloc, CLIENT_LINKS)?;
    let end = run_worker(rt, alloc, &mut worker, world, &mut desk);
    Ok(Finished {
        end,
        desk: desk.into_desk(),
    })
}
