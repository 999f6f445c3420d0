//! Where the mark and the log of a volume lie: what an edit has to know before its first write.
#![tactic(auto)]

mod flag;
mod laws;
mod log;

pub use flag::find_flag;
pub use laws::{log_laws, places_apart};
pub use log::find_log;
