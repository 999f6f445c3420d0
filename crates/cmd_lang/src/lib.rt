//! The language of scripts: lines that are read as commands, and replies that are printed.
#![tactic(auto)]

mod access;
mod digits;
mod held;
mod laws;
mod line;
mod numbers;
mod parse;
mod paths;
mod pieces;
mod print;
mod rows;
mod script;
mod verb;
mod words;

pub use laws::line_laws;
pub use parse::{LineFault, parse_line};
pub use print::{print_made, print_reply};
pub use script::{ScriptNo, make_script, next_draw};
