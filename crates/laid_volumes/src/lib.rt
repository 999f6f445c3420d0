//! What tests of whole runs stand on: a disk, a sink and words; volumes that `format` makes, and files and damage laid into them by
//! hand. They stand in a library, so that several crates of tests share them; it hands on the calls of `shell` that these make.
#![tactic(auto)]

pub mod cases;
pub mod damage;
pub mod given;
pub mod laid;
pub mod laid_files;
pub mod laid_streams;
pub mod made;
pub mod scripts;

pub use edge::{
    FrontSink, NotedSink, NotedSource, ScriptNotes, run_shell, sentence_on_refusal, start,
};
