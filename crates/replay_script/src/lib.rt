//! The text of scripts: one event a line, with bytes as printable ASCII and escapes.
#![tactic(auto)]

mod escapes;
mod lines;
#[cfg(test)]
mod tests;

pub use escapes::{escape, unescape};
pub use lines::{Line, LinkKind, read_line};
