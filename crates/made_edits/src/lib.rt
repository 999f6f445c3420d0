//! An empty file, or a directory, that comes under a name in a free record: what the volume is then, and what it reads as. Laws with
//! nothing to run.
#![tactic(auto)]

mod between;
mod laws;
mod left;

pub use between::between_made;
pub use laws::{made, made_calls};
pub use left::{left_made, rest_made};
pub use record_bits::{can_store_record_bit, store_record_bit};
pub use root_puts::{has_leaf_room, has_root_room, index_depth, put_in_root, put_item};
