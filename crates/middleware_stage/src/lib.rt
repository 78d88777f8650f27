//! One middleware: made of its declaration, and applied to requests and replies. It knows nothing of routers, of the
//! names of middlewares or of chains.
#![tactic(auto)]

mod applying;
mod building;
mod copies;
mod headers;
mod paths;
mod range;
mod redirects;
mod replying;
mod rewriting;
mod stage;
mod values;

pub use applying::apply_stage;
pub use building::{build_stage, is_chain, patterns_of};
pub use replying::apply_stage_reply;
pub use stage::{BuiltStage, Stage, StageFault, StageFlow};
