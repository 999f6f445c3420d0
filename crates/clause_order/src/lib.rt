//! The clauses of the volume definition in their order, and the refusal of a volume by the first that fails.
#![tactic(auto)]

mod clause;
mod order;

pub use clause::Clause;
pub use order::{first_unless, refuse_first};
