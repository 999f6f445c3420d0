//! A tree and a machine in plain lists: a slow program beside the definitions, which tests compare faster ones with.
#![tactic(auto)]

mod answers;
mod copies;
mod effects;
mod facts;
mod lists;
mod machine;
mod order;
mod tree;

pub use facts::PlainFacts;
pub use machine::PlainMachine;
pub use tree::PlainTree;
