//! The command `replay`: what a system makes of a script of events.
#![tactic(auto)]

mod answer;
mod config;
mod cut;
mod output;
mod run;
mod why;

pub use answer::replay;
