//! Bytes that went over bytes of a stream: what a volume is then, and what it reads as. Laws with nothing to run.
#![tactic(auto)]

mod laws;

pub use laws::{over_in_place, overwritten, tellable_names, value_overwritten};
