//! The routers of a configuration: which are enabled, why the others aren't, and which one a request gets.
//! It knows nothing of what middlewares do or where services lead.
#![tactic(auto)]

mod fault;
mod judging;
mod law;
mod order;
mod references;
mod row;
mod setting;
mod table;
mod winning;

pub use fault::RouterFault;
pub use law::winners_are_alone;
pub use row::{RouterState, Row, Search};
pub use table::{Table, build_table, rows};
pub use winning::winner;
