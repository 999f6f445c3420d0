//! A file, or a directory, that comes under a name: what is written of it, step by step.
#![tactic(auto)]

mod body;
mod entry;
mod flagged;
mod index;
mod key;
mod make;
mod named;
mod record;
mod reference;
mod standard;
mod times;
mod under;

pub use entry::new_entry;
pub use key::new_key;
pub use made_edits::{can_store_record_bit, has_leaf_room, has_root_room, index_depth};
pub use make::make_file;
pub use standard::new_standard;
