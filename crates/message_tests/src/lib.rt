//! Tests of messages and of the exchange with a backend.
//!
//! They use public calls alone, and stand apart from the crates that they try, so that these are proved once and not
//! again with their tests.
#![tactic(auto)]

#[cfg(test)]
mod edits;
#[cfg(test)]
mod exchanges;
#[cfg(test)]
mod messages;
