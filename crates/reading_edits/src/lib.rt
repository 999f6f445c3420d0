//! What a volume reads as after a call: a step of the tree that it read as, and commands made of such steps. Laws with nothing to run.
#![tactic(auto)]

mod effects;
mod laws;
mod nodes;

pub use effects::{commands_made, steps_made};
pub use laws::{names_read, nodes_read};
pub use nodes::new_nodes;
