//! What a worker shares with the rest of the program: published generations, their pins, and what was looked at and
//! drawn under each number.
#![tactic(auto)]

mod final_desk;
mod laws;
mod one;
mod seats;
mod server;
mod shared;
#[cfg(test)]
mod tests;
mod timeline;
mod told;

pub use final_desk::FinalDesk;
pub use laws::the_last_is_the_greatest;
pub use one::OneDesk;
pub use shared::Shared;
