//! The text of a rule, which says what requests a router takes.
#![tactic(auto)]

mod build;
mod call;
mod check;
mod depth;
mod expect;
mod law;
mod lex;
mod matcher;
mod print;
mod read;
mod rule;
mod scan;
#[cfg(test)]
mod tests;
mod token;

pub use check::{takes_count, takes_key, takes_value};
pub use law::{
    outcomes_are_alone, prints_are_read_again, prints_are_rule_texts, rule_texts_have_forms,
};
pub use lex::{LexFault, read_tokens};
pub use matcher::{Matcher, matcher_named, name_of};
pub use print::{Level, print_rule};
pub use read::{RuleFault, read_rule};
pub use rule::{Leaf, Rule};
pub use token::{Token, TokenKind};
