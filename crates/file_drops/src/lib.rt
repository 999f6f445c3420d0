//! A file that goes with its one name: what is taken out, step by step.
#![tactic(auto)]

mod drop;
mod exit;
mod free;
mod index;
mod name;
mod quit;

pub use drop::drop_file;
