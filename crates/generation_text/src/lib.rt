//! The text of a configuration as it runs: its number, its routers, its services with their servers and its middlewares, a line
//! each.
#![tactic(auto)]

mod graph;
mod law;
mod rows;
mod services;
mod whole;

pub use law::{middlewares_are_told, routers_are_told, services_are_told};
pub use rows::push_rows;
pub use services::services_text;
pub use whole::generation_text;
