//! Tests of the tree's machine and of its language, by public calls. They stand here, in a crate above those that they test, so that each
//! is proved once.
#![tactic(auto)]

#[cfg(test)]
mod commands;
#[cfg(test)]
mod drawn;
#[cfg(test)]
mod machine;
