//! The words of `check`.
ghost use Rattle.std.specs.Prelude.{◌≡◌, MatchResult};
ghost use Rattle.command_words.specs.declared.command.CheckPlan.{CheckPlan as Plan};
ghost use Rattle.command_words.specs.Commands.{IsCheck};

use crate::command::{CheckPlan, WordFault};
use crate::route::config_of;
use crate::sorting::Sorted;
use px_base::Bytes;
use std::alloc::Global;

pub(crate) fn read_check(alloc: Global, sorted: &Sorted) -> Result<CheckPlan, WordFault>
    ensures { MatchResult result
        (IsCheck sorted.now)
        (λ fault. fault ≡ WordFault.NotACommand → (plan : Plan) → ¬ (IsCheck sorted.now plan)) }
{
    if !sorted.settings.is_empty() {
        return Err(WordFault::NotACommand);
    }
    let config = config_of(sorted.others.as_slice())?;
    Ok(CheckPlan {
        config: Bytes::from_slice(alloc, config)?,
    })
}
