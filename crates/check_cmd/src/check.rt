//! The command.
ghost use Rattle.std.specs.Prelude.{◌≡◌, ◌≢◌, ◌<◌, ◌^◌, true, length, IfOk, IfErr};
ghost use Rattle.px_base.specs.Bytes.{Rose};
ghost use Rattle.check_cmd.specs.Output.{CheckOutput, IsChecked, Stops, declares_nothing as is_nothing, number_of as number_of_merged};

use crate::stop::CheckStop;
use config_input::{NoConfig, read_config};
use dyn_config::Merged;
use generation_text::generation_text;
use px_base::{Answer, Memory, Source};
use rule_eval::PatternShop;
use runtime_config::build_runtime;
use std::alloc::Global;

/// The answer of `check`: the configuration of a file, as it would be served.
///
/// | Status | Text |
/// |---|---|
/// | 0 | `generation <n>`, the lines of routers, of services and their servers, of middlewares, and `end` |
/// | 3 | `config <fault>`: the file is no configuration |
/// | 8 | `too long`: the file has more than 1 MiB |
pub fn answer_check<C: Source, S: PatternShop>(
    alloc: Global,
    config: &mut C,
    shop: &mut S,
) -> Result<Answer, CheckStop>
    ensures told { IfOk result (λ a. CheckOutput (S.refusals shop.old) (S.refusals shop.new) (C.left config.old) a.status a.text.items) }
    // The file was read to its end.
    ensures end { IfOk result (λ a. a.status ≡ 0 → C.ended config.new ≡ true) }
    // These statuses say that a source or a sink failed.
    ensures apart { IfOk result (λ a. (a.status ≢ 5) × (a.status ≢ 6)) }
    ensures stop { IfErr result (Stops (Rose (C.faults config.old) (C.faults config.new))) }
{
    match read_config(alloc, config) {
        Ok(merged) => Ok(answer_merged(alloc, merged, shop)?),
        Err(NoConfig::Refused(answer)) => Ok(answer),
        Err(NoConfig::Failed) => Err(CheckStop::Unread),
        Err(NoConfig::Memory) => Err(CheckStop::Memory),
    }
}

// The answer under a configuration.
fn answer_merged<S: PatternShop>(
    alloc: Global,
    merged: Merged,
    shop: &mut S,
) -> Result<Answer, Memory>
    requires few { length merged.services < 2 ^ 32 }
    ensures told { IfOk result (λ a. IsChecked (S.refusals shop.old) (S.refusals shop.new) merged a.text.items) }
    ensures status { IfOk result (λ a. a.status ≡ 0) }
{
    let number = number_of(&merged);
    let runtime = build_runtime(alloc, merged, shop)?;
    let mut text = Vec::new(alloc);
    generation_text(alloc, number, &runtime, &mut text)?;
    Ok(Answer { status: 0, text })
}

fn declares_nothing(merged: &Merged) -> bool
    ensures { result ≡ is_nothing merged.now }
{
    merged.routers.len() == 0 && merged.services.len() == 0 && merged.middlewares.len() == 0
}

// 1, or 0 for a configuration that declares nothing.
fn number_of(merged: &Merged) -> u64
    ensures { result ≡ number_of_merged merged.now }
{
    if declares_nothing(merged) { 0 } else { 1 }
}
