//! What a command owes that makes a file, put together. Laws with nothing to run.
#![tactic(auto)]

mod laws;

pub use laws::{made_has_room, made_leaves};
