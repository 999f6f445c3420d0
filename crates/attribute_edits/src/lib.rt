//! A file's times and DOS flags set, in its standard information and in every entry that repeats them. Laws with nothing to run.
#![tactic(auto)]

mod laws;

pub use laws::{secured, set_attributes_laws, set_entries_laws, set_indexes_laws, set_node_laws};
