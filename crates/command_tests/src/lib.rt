//! Tests of the program's words and of the commands that need no network.
//!
//! They use public calls alone, and stand apart from the crates that they try, so that these are proved once and not
//! again with their tests.
#![tactic(auto)]

#[cfg(test)]
mod offline;
#[cfg(test)]
mod replays;
#[cfg(test)]
mod routes;
#[cfg(test)]
mod words;
