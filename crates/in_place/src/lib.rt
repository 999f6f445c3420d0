//! Values that are rewritten where they stand: what such an edit leaves of a volume. Laws with nothing to run.
#![tactic(auto)]

mod calls;
mod exact;
mod laws;
mod owed;

pub use calls::rewrites_by_calls;
pub use exact::{indexes_owed, nodes_owed};
pub use laws::{
    clusters_apart, rewrite_is_edit, rewrites_in_turn, rewritten_attributes, rewritten_files,
    rewritten_records, rewritten_room,
};
pub use owed::{attributes_owed, gains_owed, names_owed, owed_behind, records_owed};
