//! The mark of a volume that is edited: where it lies, what a volume is apart from it, and what an edit of one value leaves.
#![tactic(auto)]

mod laws;

pub use laws::{apart_laws, flag_laws, mark_laws, written_laws};
