//! Where a path puts a new name.
#![tactic(auto)]

mod place;
mod spelling;

pub use place::{NewPlace, find_place};
