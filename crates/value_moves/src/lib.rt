//! A value that moves out of its record into clusters: its attribute becomes an extent of one run.
#![tactic(auto)]

mod bytes;
mod moves;

pub use moves::move_value;
