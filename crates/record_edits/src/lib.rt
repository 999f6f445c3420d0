//! An edit of one record, or of the clusters of one attribute, is a call that keeps its promise: laws with nothing to run.
#![tactic(auto)]

mod block;
mod costs;
mod laws;
mod place;
mod runs;

pub use block::{edited_block, one_part};
pub use costs::{edit_costs, full_volume};
pub use laws::{edited_files, edited_list, edited_record, ready_volume};
pub use place::{edited_flush, edited_place};
pub use runs::{bits_followed, clusters_owned, extent_changed, runs_named};
