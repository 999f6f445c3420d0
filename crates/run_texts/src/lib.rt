//! How long the text of a run list is, and how much longer it gets. Laws with nothing to run.
#![tactic(auto)]

mod laws;

pub use laws::{joined_text, longer_text, stored_text, text_length};
