//! One stream edited in the base record of a file: what the volume is then, and what it reads as. Laws with nothing to run.
#![tactic(auto)]

mod calls;
mod laws;

pub use calls::{extent_calls, value_calls};
pub use laws::{edited_alone, stream_put};
