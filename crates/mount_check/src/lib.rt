//! The check of a volume: a disk is taken into use where all clauses of the volume definition hold and it was closed.
#![tactic(auto)]

mod check;
mod finish;
mod laws;
mod mirror;
mod mirror_place;
mod records;
mod version;

pub use check::mount;
pub use laws::one_answer;
