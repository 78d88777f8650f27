//! The command `serve`: a configuration out of a file, and a worker that serves by it.
#![tactic(auto)]

mod begin;
mod loading;
mod reading;
mod serving;
mod text;
mod top;

pub use top::{ServeEnd, serve};
