//! The text of a whole rule.
ghost use Rattle.std.specs.Prelude.{◌≡◌, ◌≤◌, ◌<◌, IfOk, IfErr, length};
ghost use Rattle.rule_lang.specs.Trees.{tree_of};
ghost use Rattle.rule_lang.specs.Tokens.{AreTokens};
ghost use Rattle.rule_lang.specs.Forms.{Form, IsRule, form_depth};
ghost use Rattle.rule_lang.specs.Reading.{IsReadAs, IsRuleFault};

use super::build::build;
use super::call::CallFault;
use super::depth::deepest;
use super::expect::first_unexpected;
use crate::{LexFault, Rule, Token, read_tokens};
use std::alloc::Global;

/// The greatest length of a rule's text, in bytes.
const MAX_RULE: usize = 4096;

/// The greatest number of `!` and of parentheses of groups round a call.
const MAX_DEPTH: usize = 32;

/// Why a text is no rule. A place counts bytes from the text's start.
#[derive(Clone, Copy, Debug, PartialEq, Eq)]
pub enum RuleFault {
    /// More than 4,096 bytes.
    TooLong,
    /// The first place where no token begins, the opening quote of a value that is not closed, or
    /// the backslash of another escape than those of a double quote and a backslash.
    Lex { at: usize },
    /// The start of the first token with which the tokens so far begin no rule, or the text's
    /// length where the end comes too early.
    Unexpected { at: usize },
    /// More than 32 `!` and parentheses of groups stand round a call.
    TooDeep,
    /// The first call that is wrong has a name that names no matcher. The name's place.
    UnknownMatcher { at: usize },
    /// The first call that is wrong has more or fewer values than its matcher takes. The name's
    /// place.
    Arity { at: usize },
    /// The first call that is wrong has a value that its matcher refuses. The first such value's
    /// place.
    Value { at: usize },
    Memory,
}

/// Reads a rule.
///
/// A fault is the first in the order of its variants; of faults of calls it is that of the first
/// call from the left.
pub fn read_rule(alloc: Global, text: &str) -> Result<Rule, RuleFault>
    ensures rule { IfOk result (λ rule. IsReadAs text.now (tree_of rule)) }
    ensures fault { IfErr result (IsRuleFault text.now) }
{
    if text.len() > MAX_RULE {
        return Err(RuleFault::TooLong);
    }
    let text = text.as_bytes();
    match read_tokens(alloc, text) {
        Ok(tokens) => read_expected(alloc, text, tokens.as_slice()),
        Err(LexFault::Lex { at }) => Err(RuleFault::Lex { at }),
        Err(LexFault::Memory) => Err(RuleFault::Memory),
    }
}

fn read_expected(alloc: Global, text: &[u8], tokens: &[Token]) -> Result<Rule, RuleFault>
    requires short { length text.now ≤ 4096 }
    requires tokens { AreTokens text.now tokens.now }
    ensures rule { IfOk result (λ rule. IsReadAs text.now (tree_of rule)) }
    ensures fault { IfErr result (IsRuleFault text.now) }
{
    match first_unexpected(tokens, text.len()) {
        Some(at) => Err(RuleFault::Unexpected { at }),
        None => read_shallow(alloc, text, tokens),
    }
}

fn read_shallow(alloc: Global, text: &[u8], tokens: &[Token]) -> Result<Rule, RuleFault>
    requires short { length text.now ≤ 4096 }
    requires tokens { AreTokens text.now tokens.now }
    requires rule { (f : Form) × IsRule tokens.now f }
    ensures rule { IfOk result (λ rule. IsReadAs text.now (tree_of rule)) }
    ensures fault { IfErr result (IsRuleFault text.now) }
{
    match deepest(alloc, tokens) {
        Ok(depth) => {
            if depth > MAX_DEPTH {
                Err(RuleFault::TooDeep)
            } else {
                read_calls(alloc, text, tokens)
            }
        }
        Err(_) => Err(RuleFault::Memory),
    }
}

fn read_calls(alloc: Global, text: &[u8], tokens: &[Token]) -> Result<Rule, RuleFault>
    requires short { length text.now ≤ 4096 }
    requires tokens { AreTokens text.now tokens.now }
    requires rule { (f : Form) × IsRule tokens.now f × (form_depth f ≤ 32) }
    ensures rule { IfOk result (λ rule. IsReadAs text.now (tree_of rule)) }
    ensures fault { IfErr result (IsRuleFault text.now) }
{
    match build(alloc, text, tokens) {
        Ok(rule) => Ok(rule),
        Err(CallFault::UnknownMatcher { at }) => Err(RuleFault::UnknownMatcher { at }),
        Err(CallFault::Arity { at }) => Err(RuleFault::Arity { at }),
        Err(CallFault::Value { at }) => Err(RuleFault::Value { at }),
        Err(CallFault::Memory) => Err(RuleFault::Memory),
    }
}
