//! What a connection's machine is told, and what it means that a connection was served. The machine stands in the crate
//! above.
#![tactic(auto)]
