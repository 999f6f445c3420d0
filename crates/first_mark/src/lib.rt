//! What the first edit of a run writes beside its own, in words of the volume.
#![tactic(auto)]

mod laws;

pub use laws::first_mark_laws;
pub use mark_place::{find_flag, find_log};
