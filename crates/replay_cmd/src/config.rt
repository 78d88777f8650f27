//! The configuration of a script.
ghost use Rattle.std.specs.Prelude.{◌≡◌, ◌≤◌, Ok, MatchResult, MatchOption};
ghost use Rattle.file_provider.specs.Files.{IsFileConfig};
ghost use Rattle.replay_cmd.specs.Configs.{DeclaresNone, IsGenerationOf, FailsRead};

use crate::why::{Failure, Why};
use dyn_config::Config;
use file_provider::{FileFault, read_file_config};
use generation::{Built, Generation, build_generation};
use provider_merge::{declares_nothing, merge_file};
use rule_eval::PatternShop;
use std::alloc::Global;

/// The generation with this number that the text of a file is; none where it declares nothing.
pub(crate) fn read_generation<S: PatternShop>(
    alloc: Global,
    number: u64,
    text: &[u8],
    shop: &mut S,
) -> Result<Option<Generation>, Failure>
    ensures means { MatchResult result
        (λ o. MatchOption o (DeclaresNone text.now × (S.refusals shop.new ≡ S.refusals shop.old))
        (IsGenerationOf (S.refusals shop.old) (S.refusals shop.new) number text.now))
        (FailsRead text.now) }
    ensures later { S.refusals shop.old ≤ S.refusals shop.new }
{
    match read_file_config(alloc, text) {
        Ok(config) => generation_of(alloc, number, text, config, shop),
        Err(FileFault::Memory) => Err(Failure::Memory),
        Err(FileFault::NotToml) => Err(Failure::Refused(Why::Config)),
        Err(FileFault::Config(_)) => Err(Failure::Refused(Why::Config)),
    }
}

// The same of the configuration that was read from it.
fn generation_of<S: PatternShop>(
    alloc: Global,
    number: u64,
    text: &[u8],
    config: Config,
    shop: &mut S,
) -> Result<Option<Generation>, Failure>
    requires { IsFileConfig text.now (Ok config) }
    ensures means { MatchResult result
        (λ o. MatchOption o (DeclaresNone text.now × (S.refusals shop.new ≡ S.refusals shop.old))
        (IsGenerationOf (S.refusals shop.old) (S.refusals shop.new) number text.now))
        (FailsRead text.now) }
    ensures later { S.refusals shop.old ≤ S.refusals shop.new }
{
    let _text = text;
    if declares_nothing(&config) {
        return Ok(None);
    }
    let merged = merge_file(alloc, config)?;
    match build_generation(alloc, number, &merged, shop)? {
        Built::Generation(generation) => Ok(Some(generation)),
        Built::Later => Err(Failure::Refused(Why::Later)),
    }
}
