//! What each call on one record of a file is, as an edit of the record or a step of a call. Laws with nothing to run.
#![tactic(auto)]

mod attributes;
mod calls;
mod links;
mod records;
mod right;
mod steps;

pub use attributes::{attributes_edited, sizes_edited, values_edited};
pub use calls::{new_file, value_comes, value_goes, value_replaced, value_resized};
pub use links::links_counted;
pub use records::{base_named, extension_steps, file_made, free_found};
pub use right::{bytes_replace, record_right};
pub use steps::value_steps;
