//! The tokens of a rule's text.
ghost use Rattle.std.specs.Prelude.{IfOk, IfErr};
ghost use Rattle.rule_lang.specs.Tokens.{AreTokens, FailsAt};
ghost use Rattle.rule_lang.specs.Faults.{IsLexFault};

use super::scan::{Found, blanks, first, from_place};
use crate::Token;
use px_base::Memory;
use std::alloc::Global;

/// Why a text has no tokens.
#[derive(Clone, Copy, Debug, PartialEq, Eq)]
pub enum LexFault {
    /// The first place where no token begins, the opening quote of a value that is not closed, or
    /// the backslash of another escape than those of a double quote and a backslash.
    Lex { at: usize },
    Memory,
}

/// Reads the tokens of a rule's text. Blanks between tokens are skipped.
pub fn read_tokens(alloc: Global, text: &[u8]) -> Result<Vec<Token>, LexFault>
    ensures tokens { IfOk result (λ tokens. AreTokens text.now tokens.items) }
    ensures fault { IfErr result (IsLexFault text.now) }
{
    let mut tokens = Vec::new(alloc);
    let mut rest = text;
    let mut at = 0;
    'tokens: loop {
        let skipped = blanks(rest);
        let front = from_place(rest, skipped);
        if front.is_empty() {
            return Ok(tokens);
        }
        let start = at + skipped;
        match first(front) {
            Found::Token(kind, len) => {
                let end = start + len;
                if let Err(_) = tokens.push(Token { kind, start, end }) {
                    return Err(LexFault::Memory);
                }
                rest = from_place(front, len);
                at = end;
            }
            Found::Fault(inner) => return Err(LexFault::Lex { at: start + inner }),
        }
    }
}
