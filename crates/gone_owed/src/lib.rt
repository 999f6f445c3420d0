//! What a command owes by which a file goes, put together. Laws with nothing to run.
#![tactic(auto)]

mod laws;

pub use laws::{gone_has_room, gone_leaves};
