//! What a file leaves that was made under a name, staged and written. Laws with nothing to run.
#![tactic(auto)]

mod laws;

pub use in_place_done::{find_flag, find_log};
pub use laws::made_done_laws;
