//! Tests of configurations as they run: which services can be used, which router a request gets, where that leads, and what its
//! middlewares make of messages.
//!
//! They use public calls alone, and stand apart from the crates that they try, so that these are proved once and not
//! again with their tests.
#![tactic(auto)]

#[cfg(test)]
mod limits;
#[cfg(test)]
mod routers;
#[cfg(test)]
mod samples;
#[cfg(test)]
mod services;
#[cfg(test)]
mod weights;
