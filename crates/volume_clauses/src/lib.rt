//! Clauses of the volume definition that speak of the volume as a whole, decided from what a pass over the table notes.
#![tactic(auto)]

mod climb;
mod limits;
mod links;
mod marks;
mod pairs;
mod references;
mod tallies;

pub use limits::first_long_file;
pub use links::first_wrong_link;
pub use references::first_wrong_reference;
