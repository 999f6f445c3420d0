//! Edits of files beside those of one attribute: the steps within one call on several records, link counts, and files that come and go.
//! Laws with nothing to run.
#![tactic(auto)]

mod files;
mod laws;
mod steps;

pub use files::{file_comes, file_goes, links_set};
pub use laws::{edited_in_two, steps_in_turn};
pub use steps::{part_steps, record_steps, steps_begun, steps_files, steps_lists};
