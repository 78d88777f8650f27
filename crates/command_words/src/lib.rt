//! The words that the program is called with, and the commands that they are.
#![tactic(auto)]

mod check;
mod command;
mod cuts;
mod kind;
mod laws;
mod listens;
mod lookup;
mod numbers;
mod read;
mod route;
mod serve;
mod sorting;

pub use command::{CheckPlan, Command, RoutePlan, WordFault};
pub use laws::words_are_made_of_pieces;
pub use read::read_words;
