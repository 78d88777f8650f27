//! Tests of connections, of a worker and of the command `serve`.
//!
//! They use public calls alone, and stand apart from the crates that they try, so that these are proved once and not
//! again with their tests.
#![tactic(auto)]

#[cfg(test)]
mod connections;
#[cfg(test)]
mod generations;
#[cfg(test)]
mod services;
#[cfg(test)]
mod serving;
#[cfg(test)]
mod workers;
