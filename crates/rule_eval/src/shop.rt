//! Who builds patterns, and may refuse one for its size.
ghost use Rattle.std.specs.Prelude.{◌≡◌, ◌≤◌, ℕ, IfOk, OnOk, IfErr, IsErrOf};
ghost use Rattle.rule_eval.specs.Counts.{Counts};
ghost use Rattle.rule_eval.specs.Patterns.{IsReadable};
ghost use Rattle.rule_eval.specs.Views.{pattern_text};

use crate::building::PatternFault;
use crate::pattern::Pattern;

/// A builder of patterns. It counts what it refuses for size in a number that never falls, and stays
/// at 2^64 - 1 once it is there. It keeps its own allocator.
pub trait PatternShop {
    /// How many patterns it has refused for their size.
    ghost refusals: { Self → ℕ };

    /// Builds the pattern of a text.
    fn build(&mut self, text: &str) -> Result<Pattern, PatternFault>
        ensures text { IfOk result (λ p. pattern_text p ≡ text.now) }
        ensures read { OnOk result (IsReadable text.now) }
        ensures syntax { IsErrOf result PatternFault.Syntax → ¬ (IsReadable text.now) }
        ensures too_big { IsErrOf result PatternFault.TooBig → IsReadable text.now }
        // It counts what it refuses for its size, and nothing else.
        ensures still { OnOk result (refusals self.new ≡ refusals self.old) }
        ensures counted { IfErr result (Counts (refusals self.old) (refusals self.new)) }
        ensures later { refusals self.old ≤ refusals self.new };
}
