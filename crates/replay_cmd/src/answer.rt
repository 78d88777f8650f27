//! The command.
ghost use Rattle.std.specs.Prelude.{◌≡◌, ◌≢◌, ◌≤◌, length, IfOk};
ghost use Rattle.replay_cmd.specs.Replays.{Replayed, feeds, number_of};

use crate::cut::is_blank;
use crate::output::output_of;
use crate::run::Run;
use crate::why::{Failure, refusal_of};
use px_base::{Answer, Memory};
use rule_eval::PatternShop;
use std::alloc::{AllocError, Global};

/// What a system makes of a script.
///
/// | Status | Text |
/// |---|---|
/// | 0 | `published <n>`, what each link took, and the notes in order |
/// | 4 | `script <line> <why>`: the first line that is refused |
pub fn replay<S: PatternShop>(alloc: Global, script: &[u8], shop: &mut S) -> Result<Answer, Memory>
    ensures told { IfOk result (λ a. Replayed (S.refusals shop.old) (S.refusals shop.new) script.now a.status a.text.items) }
    ensures apart { IfOk result (λ a. (a.status ≢ 5) × (a.status ≢ 6)) }
{
    let mut run = Run::new(alloc)?;
    let mut rest = script;
    while !is_blank(rest) {
        match run.tell(alloc, rest, shop) {
            Ok(more) => rest = more,
            Err(Failure::Refused(why)) => {
                let text = refusal_of(alloc, line_number(script, rest), why)?;
                return Ok(Answer { status: 4, text });
            }
            Err(Failure::Memory) => return Err(AllocError),
        }
    }
    let text = output_of(alloc, &run.system)?;
    Ok(Answer { status: 0, text })
}

// The number of the line at the front of what is left of a script.
fn line_number(script: &[u8], rest: &[u8]) -> u64
    ensures { result ≡ number_of script.now rest.now }
{
    (line_feeds(script).saturating_sub(line_feeds(rest)) + 1) as u64
}

fn line_feeds(text: &[u8]) -> usize
    ensures is { result ≡ feeds text.now }
    ensures few { result ≤ length text.now }
{
    text.iter().filter(|b| **b == b'\n').count()
}
