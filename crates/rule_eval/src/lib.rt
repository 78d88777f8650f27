//! The truth of rules: a rule is compiled once, its patterns and networks with it, and then asked of
//! requests. It knows nothing of routers or of the configuration.
#![tactic(auto)]

mod asking;
mod building;
mod check;
mod compiled;
mod compiling;
mod counting;
mod memory_shop;
mod method;
mod network;
mod pairs;
mod pattern;
mod probe;
mod regex_shop;
mod shop;

pub use building::PatternFault;
pub use compiled::{Compiled, holds};
pub use compiling::{CompileFault, compile};
pub use counting::patterns;
pub use memory_shop::MemoryShop;
pub use pattern::Pattern;
pub use regex_shop::RegexShop;
pub use shop::PatternShop;
