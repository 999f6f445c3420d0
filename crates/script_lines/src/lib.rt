//! The lines of a script, from a source that gives its bytes in any pieces.
#![tactic(auto)]

mod reader;

pub use reader::{LineReader, Next};
