//! What an edit leaves that was staged and written: one in place, or of one stream alone. Laws with nothing to run.
#![tactic(auto)]

mod laws;

pub use edit_written::{find_flag, find_log};
pub use laws::in_place_done_laws;
