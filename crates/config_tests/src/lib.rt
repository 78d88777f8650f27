//! Tests of configurations and of their rules.
//!
//! They use public calls alone, and stand apart from the crates that they try, so that these are proved once and not
//! again with their tests.
#![tactic(auto)]

#[cfg(test)]
mod definitions;
#[cfg(test)]
mod rules;
