//! A shop that refuses the builds that a list names.
ghost use Rattle.std.specs.Prelude.{◌≡◌, ◌≤◌, ℕ, true, IfOk, OnOk, IfErr, IsOk, IsErrOf};
ghost use Rattle.px_base.specs.Bytes.{one_more};
ghost use Rattle.px_base.specs.Memory.{is_listed};
ghost use Rattle.rule_eval.specs.Counts.{Counts};
ghost use Rattle.rule_eval.specs.Patterns.{IsReadable};
ghost use Rattle.rule_eval.specs.Views.{pattern_text};

use crate::building::PatternFault;
use crate::pattern::Pattern;
use crate::shop::PatternShop;
use px_base::List;
use std::alloc::Global;
use std::marker::Model;

/// A shop that builds as `RegexShop` does, and then refuses what it built for size where its list
/// names the number of the build.
#[derive(Drop)]
pub struct MemoryShop {
    alloc: Global,
    too_big: List<u64>,
    builds: u64,
    refusals: u64,
}

impl Model for MemoryShop {
    ghost use Rattle.rule_eval.specs.Shops.{Stock};

    ghost Value = { Stock };

    ghost view = { λ s. record { too_big = s.too_big; builds = s.builds; refusals = s.refusals } };
}

impl MemoryShop {
    /// The builds whose numbers are listed are refused. The first build has the number 1.
    pub fn new(alloc: Global, too_big: Vec<u64>) -> MemoryShop
        ensures { result ≡ record { too_big = too_big.items; builds = 0; refusals = 0 } }
    {
        MemoryShop {
            alloc,
            too_big: List::from_vec(too_big),
            builds: 0,
            refusals: 0,
        }
    }

    // Whether this build is listed.
    fn refuses(&self) -> bool
        ensures { result ≡ is_listed self.now.too_big self.now.builds }
    {
        self.too_big.as_slice().contains(&self.builds)
    }
}

impl PatternShop for MemoryShop {
    ghost refusals = { λ s. s.refusals };

    fn build(&mut self, text: &str) -> Result<Pattern, PatternFault>
        ensures text { IfOk result (λ p. pattern_text p ≡ text.now) }
        ensures read { OnOk result (IsReadable text.now) }
        ensures syntax { IsErrOf result PatternFault.Syntax → ¬ (IsReadable text.now) }
        ensures too_big { IsErrOf result PatternFault.TooBig → IsReadable text.now }
        ensures still { OnOk result (self.new.refusals ≡ self.old.refusals) }
        ensures counted { IfErr result (Counts self.old.refusals self.new.refusals) }
        ensures later { self.old.refusals ≤ self.new.refusals }

        // A listed build gives no pattern.
        ensures number { self.new.builds ≡ one_more self.old.builds }
        ensures listed { is_listed self.old.too_big (one_more self.old.builds) ≡ true → ¬ (IsOk result) }
        ensures same { self.new.too_big ≡ self.old.too_big }
    {
        self.builds = self.builds.saturating_add(1);
        match Pattern::new(self.alloc, text) {
            Ok(pattern) => {
                if self.refuses() {
                    self.refusals = self.refusals.saturating_add(1);
                    return Err(PatternFault::TooBig);
                }
                Ok(pattern)
            }
            Err(PatternFault::Syntax) => Err(PatternFault::Syntax),
            Err(PatternFault::TooBig) => {
                self.refusals = self.refusals.saturating_add(1);
                Err(PatternFault::TooBig)
            }
            Err(PatternFault::Memory) => Err(PatternFault::Memory),
        }
    }
}
