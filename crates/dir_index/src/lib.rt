//! The names of a directory, by its index.
#![tactic(auto)]

mod entry;
mod fresh;
mod index;
mod laws;
mod link;
mod replace;
mod search;
mod sought;
mod standard;
#[cfg(test)]
mod tests;

pub use entry::{DuplicatedInformation, refresh_entry};
pub use index_store::{FoundIndex, IndexBlocks, IndexBlocksMut, find_first, find_index, has_list};
pub use laws::{directory_edit_laws, directory_search_laws, directory_walk_laws};
pub use link::link_of_key;
pub use replace::replace_in;
pub use search::{list, list_in, lookup, lookup_in};
pub use standard::set_node;
