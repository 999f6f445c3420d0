//! An entry that goes out of the root of an index which has no records, in the record of its directory.
#![tactic(auto)]

mod set;
mod take;
mod value;

pub use index_takes::{has_leaf_entry, has_root_entry, take_item};
pub use take::take_in_root;
