//! The edge of `ntfs_shell`: the arguments, the image's file, and what a person is told on standard error.
#![tactic(auto)]

mod arguments;
mod edge;
mod explain;
mod front;
mod help;
mod image;
mod noted;
mod refused;
mod script_line;
mod verbs;
mod watched;
mod words;

pub use edge::start;
pub use front::FrontSink;
pub use noted::{NotedSink, NotedSource, ScriptNotes};
pub use refused::sentence_on_refusal;
// The shell itself, for the tests of whole runs.
pub use shell::run_shell;
