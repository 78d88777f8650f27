//! The shop of the running program.
ghost use Rattle.std.specs.Prelude.{◌≡◌};

use crate::building::PatternFault;
use crate::pattern::Pattern;
use crate::shop::PatternShop;
use std::alloc::Global;

/// A shop that refuses what `regex` compiles to more than 1 MiB.
#[derive(Drop)]
pub struct RegexShop {
    alloc: Global,
    refusals: u64,
}

impl RegexShop {
    pub fn new(alloc: Global) -> RegexShop
        ensures { result ≡ record { alloc = alloc; refusals = 0 } }
    {
        RegexShop { alloc, refusals: 0 }
    }
}

impl PatternShop for RegexShop {
    ghost refusals = { λ s. s.refusals };

    fn build(&mut self, text: &str) -> Result<Pattern, PatternFault> {
        match Pattern::new(self.alloc, text) {
            Ok(pattern) => Ok(pattern),
            Err(PatternFault::Syntax) => Err(PatternFault::Syntax),
            Err(PatternFault::TooBig) => {
                self.refusals = self.refusals.saturating_add(1);
                Err(PatternFault::TooBig)
            }
            Err(PatternFault::Memory) => Err(PatternFault::Memory),
        }
    }
}
