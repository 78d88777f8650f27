//! The command `check`: how a configuration would be served.
#![tactic(auto)]

mod check;
mod stop;

pub use check::answer_check;
pub use stop::CheckStop;
