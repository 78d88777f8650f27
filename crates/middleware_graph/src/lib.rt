//! Which of the middlewares that refer to one another are sound, and what each chain of them stands for. It knows middlewares
//! by their places alone, and nothing of what they do.
#![tactic(auto)]

mod cycle;
mod fault;
mod flat;
mod law;
mod node;
mod state;
#[cfg(test)]
mod tests;

pub use fault::MiddlewareFault;
pub use flat::flatten;
pub use law::usable_middlewares_are_sound;
pub use node::{Flat, Node};
pub use state::{State, states_of};
