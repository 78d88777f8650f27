//! What the crates above share: lists in public fields, sources and sinks of bytes, decimals, and what a command answers.
#![tactic(auto)]

mod answer;
mod decimal;
mod list;
mod memory_sink;
mod memory_source;
mod server;
mod sink;
mod source;
mod std_io;
mod step;
#[cfg(test)]
mod tests;
mod text;

pub use answer::{Answer, make_answer};
pub use decimal::{print_decimal, read_decimal};
pub use list::{Bytes, List};
pub use memory_sink::MemorySink;
pub use memory_source::MemorySource;
pub use server::Server;
pub use sink::{Sink, WriteFault, write_all};
pub use source::{ReadFault, Source, read_all};
pub use std_io::{StdSink, StdSource};
pub use step::{ReadStep, WriteStep};
pub use text::{cut_at_colon, fold_equal, without_last_dot};

/// Memory ran out.
pub type Memory = std::alloc::AllocError;
