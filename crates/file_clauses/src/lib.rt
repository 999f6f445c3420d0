//! Clauses of the volume definition that are decided from the attributes of a record, or of a file. Nothing here reads a disk.
#![tactic(auto)]

mod attributes;
mod extents;
mod limits;
mod lists;
mod version;
mod whole;

pub use attributes::is_right_record;
pub use extents::{Extent, Held, add_extents, clusters_of};
pub use limits::are_in_limits;
pub use lists::{add_wanted, names_each};
pub use version::find_version;
pub use whole::{BAD_NAME, are_whole, has_whole_extents};
