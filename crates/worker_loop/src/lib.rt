//! A worker: it serves the clients that come to a world, by what it shares with the rest of the program.
#![tactic(auto)]

mod keys;
mod laws;
mod rounds;
mod worker;

pub use laws::{attends_after_publications, attends_after_waits};
pub use rounds::{WorkerEnd, run_worker};
pub use worker::{MOST_LINKS, Worker};
