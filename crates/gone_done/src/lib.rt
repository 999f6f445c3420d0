//! What a file leaves that went with its one name, staged and written. Laws with nothing to run.
#![tactic(auto)]

mod laws;

pub use laws::gone_done_laws;
