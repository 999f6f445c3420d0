//! What a run of sessions is, and what an edit that was done leaves.
#![tactic(auto)]

mod laws;

pub use laws::{clean_law, hidden_files, leaves_done, others_kept};
