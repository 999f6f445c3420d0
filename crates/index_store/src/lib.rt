//! The indexes of a file, with their records.
#![tactic(auto)]

mod index;
mod index_blocks;
mod index_blocks_mut;
mod index_record;
mod laws;
mod parts_met;
mod record_write;

// What tells an attribute by its first part, for the crate above.
pub use attr_store::{FileNo, FileParts, Mft, Stored, find_first, has_list, read_stored};
pub use index::{FoundIndex, find_index};
pub use index_blocks::IndexBlocks;
pub use index_blocks_mut::IndexBlocksMut;
pub use index_record::read_index_record;
pub use index_tree::{Index, IndexNo};
pub use laws::{changed_laws, index_laws};
