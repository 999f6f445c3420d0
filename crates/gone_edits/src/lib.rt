//! A file that goes with its one name: what the volume is then, and what it reads as. Laws with nothing to run.
#![tactic(auto)]

mod between;
mod laws;
mod left;

pub use between::between_gone;
pub use laws::{gone, gone_calls};
pub use left::{left_gone, rest_gone};
