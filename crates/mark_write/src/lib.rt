//! The writing of a volume that is edited: its mark, its emptied log, what is staged, and its closing.
//!
//! A volume is marked before the first sector of an edit is written, so that what a fault leaves is
//! marked or whole. Everything here speaks of sectors and of where the mark lies, and of no volume.
#![tactic(auto)]

mod edit;
mod flag;
mod log;
mod mark;

pub use edit::finish_edit;
pub use flag::Flag;
pub use log::{Span, fill_log};
pub use mark::{close_marked, set_mark};
