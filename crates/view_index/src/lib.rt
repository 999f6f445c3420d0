//! The view indexes of a volume: security descriptors by their ids.
#![tactic(auto)]

mod entry;
mod ids;
mod index;
mod laws;
mod place;
mod security;

pub use laws::security_law;
pub use security::{descriptor, find_security};
