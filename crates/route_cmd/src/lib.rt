//! The command `route`: where a request head would go under a configuration file.
#![tactic(auto)]

mod answer;
mod heads;
mod lines;
mod requests;
mod route;
mod services;

pub use answer::Stop;
pub use route::{answer_route, fault_answer};
