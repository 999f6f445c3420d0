//! An edit that was staged and written: from its bytes to what is said of the volume. Laws with nothing to run.
#![tactic(auto)]

mod laws;

pub use first_mark::{find_flag, find_log};
pub use laws::{left_alone, staged_laws, written_laws};
