//! A tree of named values, as a configuration text gives them before anyone knows what they mean.
#![tactic(auto)]

mod durations;
mod fault;
mod fields;
mod keys;
#[cfg(test)]
mod tests;
mod texts;
mod tree;
mod values;

pub use durations::read_duration;
pub use fault::ValueFault;
pub use fields::Fields;
pub use keys::walk_order;
pub use texts::{read_flag, read_number};
pub use tree::{Tree, find};
pub use values::Style;
