//! What a volume is where an entry of a directory tells the facts of its file anew.
#![tactic(auto)]

mod laws;

pub use dir_index::{FoundIndex, IndexBlocks, IndexBlocksMut, find_first, find_index, has_list};
pub use laws::{refreshed_clauses, refreshed_items, refreshed_keys};
