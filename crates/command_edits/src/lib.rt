//! Calls on names and files, and the commands made of them: what the volume is, and what it reads as. Laws with nothing to run.
#![tactic(auto)]

mod allowed;
mod between;
mod commands;
mod edited;
mod entries;
mod kept;
mod made;
mod reading;
mod told;

pub use allowed::{commands_allowed, number_fresh};
pub use between::{calls_between, quiet_calls, sound_between};
pub use commands::{files_set, names_given, names_taken};
pub use edited::{commands_edited, edited_inside};
pub use entries::{entries_current, entries_kept};
pub use kept::{others_kept, sequences_kept, standards_kept, values_kept};
pub use made::{calls_made, nodes_made};
pub use reading::calls_read;
pub use told::{dropped_values, entries_told};
