//! An entry that goes out of the index of a directory: of a record of it, where that has another one, or of a root without records.
#![tactic(auto)]

mod entry;
mod laws;
mod root;
mod shrink;
mod take;

pub use entry::has_leaf_entry;
pub use laws::{entry_laws, take_clauses, take_items};
pub use root::has_root_entry;
pub use shrink::shrink_root;
pub use take::take_item;
