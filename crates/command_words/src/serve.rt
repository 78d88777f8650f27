//! The words of `serve`.
ghost use Rattle.std.specs.Prelude.{◌≡◌, ◌↔◌, ℕ, Option, IsTrue, MatchOption, MatchResult};
ghost use Rattle.link_world.specs.declared.plan.ServePlan.{ServePlan as Plan};
ghost use Rattle.command_words.specs.Commands.{IsServe, AreOptions, IsCountOption, IsWorkers, IsWorkersOption, is_serve_option as is_option_of_serve};

use crate::command::WordFault;
use crate::listens::read_listens;
use crate::lookup::{text_of, value_of};
use crate::numbers::count;
use crate::sorting::{Setting, Sorted};
use link_world::{PollPlan, ServePlan};
use std::alloc::Global;

/// How many listens one call may have.
const MAX_LISTENS: usize = 16;

/// The time between two readings of the file, in milliseconds.
const PERIOD: u64 = 5_000;

pub(crate) fn read_serve(alloc: Global, sorted: &Sorted) -> Result<ServePlan, WordFault>
    ensures { MatchResult result
        (IsServe sorted.now)
        (λ fault. fault ≡ WordFault.NotACommand → (plan : Plan) → ¬ (IsServe sorted.now plan)) }
{
    let settings = sorted.settings.as_slice();
    let others = sorted.others.as_slice();
    if !are_serve_options(settings) || others.is_empty() || others.len() > MAX_LISTENS {
        return Err(WordFault::NotACommand);
    }
    let workers = workers_of(settings)?;
    let requests = count_of(settings, b"requests")?;
    let listens = read_listens(alloc, others)?;
    let file = text_of(alloc, settings, b"file")?;
    let access = text_of(alloc, settings, b"access")?;
    Ok(ServePlan {
        listens,
        poll: PollPlan {
            file,
            consul: None,
            period: PERIOD,
        },
        workers,
        requests,
        access,
    })
}

fn are_serve_options(settings: &[Setting]) -> bool
    ensures { IsTrue result ↔ AreOptions is_option_of_serve settings.now }
{
    settings.iter().all(|s| is_serve_option(s.name.as_slice()))
}

fn is_serve_option(name: &[u8]) -> bool
    ensures { result ≡ is_option_of_serve name.now }
{
    name == b"file".as_slice()
        || name == b"workers".as_slice()
        || name == b"requests".as_slice()
        || name == b"access".as_slice()
}

// The number of workers.
fn workers_of(settings: &[Setting]) -> Result<u32, WordFault>
    ensures { MatchResult result
        (IsWorkersOption settings.now)
        (λ fault. (workers : ℕ) → ¬ (IsWorkersOption settings.now workers)) }
{
    match value_of(settings, b"workers")? {
        Some(text) => match workers(text) {
            Some(workers) => Ok(workers),
            None => Err(WordFault::NotACommand),
        },
        None => Ok(1),
    }
}

fn workers(text: &[u8]) -> Option<u32>
    ensures { MatchOption result ((n : ℕ) → ¬ (IsWorkers text.now n)) (IsWorkers text.now) }
{
    let number = count(text)?;
    if number != 1 {
        return None;
    }
    Some(1)
}

// The number of an option that may stand once.
fn count_of(settings: &[Setting], name: &[u8]) -> Result<Option<u64>, WordFault>
    ensures { MatchResult result
        (IsCountOption name.now settings.now)
        (λ fault. (number : Option ℕ) → ¬ (IsCountOption name.now settings.now number)) }
{
    match value_of(settings, name)? {
        Some(text) => match count(text) {
            Some(number) => Ok(Some(number)),
            None => Err(WordFault::NotACommand),
        },
        None => Ok(None),
    }
}
