//! The weighted earliest-deadline schedule: job k of a child of weight w is due at k / w, and jobs
//! are popped in the order in which they are due, by exact fractions, the lower child first where
//! two are due at once. It knows nothing of servers: a child is a number, and which children are up
//! is a mask.
#![tactic(auto)]

mod choice;
mod laws;
mod reduced;
mod schedule;
mod table;

pub use choice::{Drawn, Pick};
pub use laws::{
    follows_the_ratios, one_lawful_pick, one_list_of_each_length, repeats_with_the_period,
};
pub use reduced::period_of;
pub use schedule::Edf;
pub use table::Period;

/// What a call answers that found no memory.
pub type Memory = std::alloc::AllocError;

#[cfg(test)]
mod tests;
