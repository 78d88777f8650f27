//! A regular expression with a limit on its size, and why a text gives none.
ghost use Rattle.std.specs.Prelude.{◌≡◌, IfOk, OnOk, IsErrOf};
ghost use Rattle.rule_eval.specs.Patterns.{IsReadable, IsBuiltFrom};

use regex::{Error, Regex, RegexBuilder};
use std::alloc::Global;

/// The greatest size of a compiled pattern, in bytes.
const MAX_SIZE: usize = 1 << 20;

/// Why a text gives no pattern.
#[derive(Clone, Copy, Debug, PartialEq, Eq)]
pub enum PatternFault {
    /// The grammar of `regex` reads no pattern in it, or one that nests deeper than 250.
    Syntax,
    /// The pattern is too large.
    TooBig,
    Memory,
}

// A compiled expression of at most 1 MiB.
pub(crate) fn build(alloc: Global, text: &str) -> Result<Regex, PatternFault>
    ensures built { IfOk result (IsBuiltFrom text.now) }
    ensures read { OnOk result (IsReadable text.now) }
    ensures syntax { IsErrOf result PatternFault.Syntax → ¬ (IsReadable text.now) }
    ensures too_big { IsErrOf result PatternFault.TooBig → IsReadable text.now }
{
    match RegexBuilder::new(text).size_limit(MAX_SIZE).build(alloc) {
        Ok(regex) => Ok(regex),
        Err(Error::Syntax(_)) => Err(PatternFault::Syntax),
        Err(Error::OutOfMemory) => Err(PatternFault::Memory),
        Err(Error::CompiledTooBig) => Err(PatternFault::TooBig),
        Err(Error::Internal) => Err(PatternFault::TooBig),
    }
}
