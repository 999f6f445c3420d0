//! What an NTFS 3.1 volume is: the clauses of the volume definition that speak of records and of the
//! table, over the layouts of `ntfs_def`, and what an image is to all that stands above the table.
#![tactic(auto)]

mod clause_laws;
mod file_laws;
mod laws;
mod version;

pub use clause_laws::{extents_clause_laws, list_clause_laws, other_list_laws, readable_laws};
pub use file_laws::{
    attribute_laws, extent_laws, list_laws, parts_laws, stored_laws, value_laws, view_laws,
};
pub use laws::{frame_laws, one_answer, one_table, same_answer};
pub use version::Version;
