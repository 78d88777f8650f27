//! One connection's part of a turn: its links are read and written, its requests get their configuration and their
//! server, and its notes are told.
#![tactic(auto)]

mod choose;
mod client;
mod laws;
mod links;
mod server;
mod service;
mod turn;

pub use laws::{
    choices_of_two_parts, looks_are_under_the_pin_before, picks_are_under_the_pin_before,
    steps_are_cut_at_pins, the_last_pin_gives_the_number,
};
pub use service::{quit, serve, stop};
pub use turn::ROOM;
