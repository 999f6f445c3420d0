//! Names that come and go: what they leave of the clauses on references and links, which files are hidden, and which names go together.
//! Laws with nothing to run.
#![tactic(auto)]

mod commands;
mod hidden;
mod links;
mod references;
mod together;

pub use commands::commands_kept;
pub use hidden::{hidden_kept, hidden_longer, unnamed_shown};
pub use links::{link_parts, links_kept};
pub use references::{names_in_turn, no_names, reference_parts, references_kept};
pub use together::{names_dropped, names_gone};
