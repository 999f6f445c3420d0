//! What a command owes that is done in place, put together. Laws with nothing to run.
#![tactic(auto)]

mod laws;

pub use laws::{in_place_has_room, in_place_leaves, in_place_premises};
