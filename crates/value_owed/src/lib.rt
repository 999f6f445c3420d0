//! What a command owes that edits one stream alone, put together. Laws with nothing to run.
#![tactic(auto)]

mod laws;

pub use laws::{value_has_room, value_leaves};
