//! What is done before the worker runs: the file is loaded, published, and its text written.
ghost use Rattle.std.specs.Prelude.{◌≡◌, ◌+◌, ◌∷◌, ◌++◌, [], IfOk, IfErr, IfSome, Option, List, ℕ, length};
ghost use Rattle.px_base.specs.Bytes.{Rose};
ghost use Rattle.conversation.specs.Plans.{Plan};
ghost use Rattle.generation.specs.Meaning.{plan_of};
ghost use Rattle.desk.specs.Kept.{desk_of, newest_plan};
ghost use Rattle.serve_cmd.specs.Meanings.{IsBegun, IsEmpty, plans_by};
ghost use Rattle.serve_cmd.specs.Ran.{WasBegun, WasCut};
ghost use Rattle.serve_cmd.specs.Ready.{IsReady, IsUnused};
ghost use Rattle.serve_cmd.specs.Stops.{IsStop};

use crate::loading::{Found, Stop, load_first};
use crate::reading::{empty_generation, read_found};
use desk::OneDesk;
use generation::Generation;
use publisher::Files;
use px_base::{Bytes, Memory, Sink, write_all};
use rule_eval::PatternShop;
use std::alloc::Global;
use std::sync::Arc;

/// What a worker begins with.
#[derive(Drop)]
pub(crate) struct Beginning {
    pub desk: OneDesk,
    pub text: Vec<u8>,
    /// The number of the last generation.
    pub published: u64,
}

/// Loads the file, publishes what it means, and writes its text.
pub(crate) fn begin<F: Files, K: Sink, S: PatternShop>(
    alloc: Global,
    path: &Option<Bytes>,
    files: &mut F,
    out: &mut K,
    shop: &mut S,
) -> Result<Beginning, Stop>
    ensures begun { IfOk result (λ b. WasBegun path.now (F.loads files.old) (F.loads files.new) (S.refusals shop.old) (S.refusals shop.new)
        (K.held out.old) (K.held out.new) (desk_of b.desk).generations b.published) }
    ensures ready { IfOk result (λ b. IsReady b.desk b.published) }
    ensures stop { IfErr result (IsStop (Rose (F.faults files.old) (F.faults files.new)) (Rose (K.faults out.old) (K.faults out.new))
        (K.held out.new ≡ K.held out.old)
        (WasCut path.now (F.loads files.old) (F.loads files.new) (S.refusals shop.old) (S.refusals shop.new) (K.held out.old) (K.held out.new))) }
{
    let found = load_first(alloc, path, files)?;
    let begun = publish_found(alloc, &found, shop)?;
    match write_all(out, begun.text.as_slice()) {
        Ok(()) => Ok(begun),
        Err(_) => Err(Stop::Write),
    }
}

// A desk with what the load means.
fn publish_found<S: PatternShop>(
    alloc: Global,
    found: &Found,
    shop: &mut S,
) -> Result<Beginning, Memory>
    ensures begun { IfOk result (λ b. IsBegun (S.refusals shop.old) (S.refusals shop.new) found.now b.text.items (desk_of b.desk).generations b.published) }
    ensures ready { IfOk result (λ b. IsReady b.desk b.published) }
{
    let reading = read_found(alloc, found, shop)?;
    let mut desk = empty_desk(alloc)?;
    let published = publish_first(alloc, &mut desk, reading.generation)?;
    Ok(Beginning {
        desk,
        text: reading.text,
        published,
    })
}

// A desk that has seen the empty configuration.
fn empty_desk(alloc: Global) -> Result<OneDesk, Memory>
    ensures seen { IfOk result (λ d. ((desk_of d).generations ≡ newest_plan d ∷ []) × IsEmpty (newest_plan d)) }
    ensures unused { IfOk result (λ d. IsUnused (desk_of d)) }
{
    let first = Arc::new(alloc, empty_generation(alloc)?)?;
    OneDesk::new(alloc, first)
}

// Publishes a generation, if there is one, and answers how many were published.
fn publish_first(
    alloc: Global,
    desk: &mut OneDesk,
    generation: Option<Generation>,
) -> Result<u64, Memory>
    requires empty { IsEmpty (newest_plan desk.old) }
    requires number { IfSome generation (λ g. (plan_of g).number ≡ 1) }
    requires unused { IsUnused (desk_of desk.old) }
    ensures published { IfOk result (λ n. (desk_of desk.new).generations ≡ (desk_of desk.old).generations ++ plans_by generation) }
    ensures count { IfOk result (λ n. n ≡ length (plans_by generation)) }
    ensures ready { IfOk result (IsReady desk.new) }
{
    match generation {
        Some(generation) => {
            desk.publish(Arc::new(alloc, generation)?)?;
            Ok(1)
        }
        None => Ok(0),
    }
}
