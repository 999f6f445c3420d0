//! Whole runs of the program, over a disk, a script and a sink in memory. They stand here, in a crate above `shell`, so that
//! it is proved once.
#![tactic(auto)]

#[cfg(test)]
mod boot;
#[cfg(test)]
mod check;
#[cfg(test)]
mod check_word;
#[cfg(test)]
mod format;
#[cfg(test)]
mod label;
#[cfg(test)]
mod make;
#[cfg(test)]
mod program;
#[cfg(test)]
mod sentences;
#[cfg(test)]
mod slips;
