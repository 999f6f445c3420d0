//! The room that an edit of one file asks for, decided from what is kept of the volume.
#![tactic(auto)]

mod ask;
mod free;
mod list;
mod need;
mod value;

pub use ask::{ask_for_room, ask_to_make};
pub use tree_read::{
    Standard, Standing, Stop, find_part, is_of_directory, links_of, load_file, load_node,
    plain_content, read_standard, resolve,
};
pub use value::clusters_of_value;
