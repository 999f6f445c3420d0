//! An entry that comes into the root of an index which has no records, and what the volume is then.
#![tactic(auto)]

mod laws;
mod put;
mod value;

pub use index_puts::{has_leaf_room, has_root_room, index_depth, put_item};
pub use laws::{root_clauses, root_edited, root_items};
pub use put::put_in_root;
