//! Declared objects that refer to one another, by their places alone: which reach themselves, which stand on sound ones, and in what
//! order they are numbered.
#![tactic(auto)]

mod height;
mod heights;
mod law;
mod links;
mod numbering;
mod reaching;

pub use height::Height;
pub use heights::heights_of;
pub use law::numbers_rise_to_parents;
pub use links::places_at;
pub use numbering::{Numbering, number_all};
pub use reaching::reaches_itself;
