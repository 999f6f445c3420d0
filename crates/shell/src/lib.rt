//! All that `ntfs_shell` does, in one call: `run_shell`.
#![tactic(auto)]

mod answer;
mod boot;
mod check;
pub mod ending;
mod format;
mod label;
mod label_option;
mod laws;
mod make;
mod refusal;
mod run;
mod shell;
mod stop;
mod text;
mod volume;
mod words;

pub use laws::{one_check, one_label};
pub use shell::run_shell;
pub use words::{Access, access_of};
