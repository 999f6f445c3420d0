//! A name comes into a directory, and the times of the directory are set.
#![tactic(auto)]

mod make;

pub use make::make_found;
pub use make_places::{NewPlace, descriptor, find_to_make};
