//! An entry that comes into the index of a directory, in a record of the index that has room for it.
#![tactic(auto)]

mod bytes;
mod depth;
mod grow;
mod laws;
mod leaf;
mod put;
mod room;
mod root;
mod seek;

pub use depth::index_depth;
pub use grow::grow_root;
pub use laws::{put_clauses, put_items, room_laws};
pub use leaf::{Leaf, find_leaf};
pub use put::put_item;
pub use room::{file_no, has_leaf_room};
pub use root::has_root_room;
pub use seek::{Spot, seek_block};
