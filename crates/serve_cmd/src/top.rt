//! The top call.
ghost use Rattle.std.specs.Prelude.{◌≡◌, ◌⊎◌, ◌<◌, IfSome, IfNone, None, Option, option_map, List, ℕ, vec_len};
ghost use Rattle.px_base.specs.Bytes.{Rose};
ghost use Rattle.conversation.specs.Plans.{Plan};
ghost use Rattle.desk.specs.Kept.{desk_of};
ghost use Rattle.serve_cmd.specs.Ran.{IsMoment, Ran, WasBegun, WasCut, IsStatus};
ghost use Rattle.serve_cmd.specs.Worlds.{AtFirst};

use crate::serving::{Outcome, serve_over};
use desk::OneDesk;
use link_world::{ServePlan, World};
use publisher::Files;
use px_base::Sink;
use rule_eval::PatternShop;
use std::alloc::Global;
use std::sync::Wait;
use worker_loop::WorkerEnd;

/// What a call of `serve` gives back.
#[derive(Drop)]
pub struct ServeEnd<W: Drop, F: Drop, K: Drop, S: Drop> {
    /// The status with which the program ends.
    pub status: u8,
    pub worlds: Vec<W>,
    pub files: F,
    pub out: K,
    pub shop: S,
    /// The end of the worker, if one ran.
    pub end: Option<WorkerEnd>,
    /// The desk that it used.
    pub desk: Option<OneDesk>,
    /// The number of the last generation that was published.
    pub published: u64,
}

/// Loads the plan's file, publishes what it means, writes its text, and serves the clients that come to the first world.
///
/// | Status | Comes |
/// |---|---|
/// | 0 | a stop was asked for |
/// | 5 | the file can't be loaded |
/// | 6 | the output failed |
/// | 7 | memory ran out |
/// | 10 | a wait of the world failed |
///
/// A file that is no configuration is written as a fault, and nothing is published: each request gets 404.
pub fn serve<R: Wait, W: World + Drop, F: Files + Drop, K: Sink + Drop, S: PatternShop + Drop>(
    rt: &R,
    alloc: Global,
    plan: &ServePlan,
    mut worlds: Vec<W>,
    mut files: F,
    mut out: K,
    mut shop: S,
) -> ServeEnd<W, F, K, S>
    requires { 0 < vec_len worlds }

    // Where a worker ran, the file was loaded, published and written, and it ran by exactly what was published: in rounds, and
    // each connection whose end it noted was served. Each request that it noted was served by the last of what was published,
    // no client is forgotten, each link is closed, and each pin, look and pick of the desk that it used is accounted for: to
    // the end, or, where memory ran out, up to the last round. Where a stop was asked for, nothing more could be done right
    // before.
    ensures ran { IfSome result.end (λ end. AtFirst worlds.items result.worlds.items (λ before now.
        Ran (IsMoment W.seen W.lately) plan.now.poll.file (F.loads files) (F.loads result.files)
        (S.refusals shop) (S.refusals result.shop) (K.held out) (K.held result.out)
        (W.seen before) (W.seen now) (option_map desk_of result.desk) end result.published)) }
    ensures idle { IfNone result.end (AtFirst worlds.items result.worlds.items (λ before now. W.seen now ≡ W.seen before)) }
    ensures status { IsStatus result.end result.status }

    // It doesn't give up by itself.
    ensures unread { result.status ≡ 5 → Rose (F.faults files) (F.faults result.files) }
    ensures unwritten { result.status ≡ 6 → Rose (K.faults out) (K.faults result.out) }

    // Then nothing was written, or a proper part of the text.
    ensures silent { result.status ≡ 5 → K.held result.out ≡ K.held out }
    ensures cut { result.status ≡ 6 → WasCut plan.now.poll.file (F.loads files) (F.loads result.files) (S.refusals shop) (S.refusals result.shop)
        (K.held out) (K.held result.out) }

    // Where memory ran out before a worker ran, nothing was written, or all of what was published. Without a worker no desk is
    // given back.
    ensures short { IfNone result.end (result.status ≡ 7 → (K.held result.out ≡ K.held out)
        ⊎ ((plans : List Plan) × WasBegun plan.now.poll.file (F.loads files) (F.loads result.files) (S.refusals shop) (S.refusals result.shop)
        (K.held out) (K.held result.out) plans result.published)) }
    ensures undesked { IfNone result.end (result.desk ≡ None) }
{
    let Outcome {
        status,
        end,
        desk,
        published,
    } = serve_over(
        rt,
        alloc,
        &plan.poll.file,
        &mut worlds[0],
        &mut files,
        &mut out,
        &mut shop,
    );
    ServeEnd {
        status,
        worlds,
        files,
        out,
        shop,
        end,
        desk,
        published,
    }
}
