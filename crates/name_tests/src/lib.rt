//! Whole runs of scripts by which names come, over a disk, a script and a sink in memory. They stand here, in a crate above `shell`, so
//! that it is proved once.
#![tactic(auto)]

#[cfg(test)]
mod creates;
#[cfg(test)]
mod directories;
#[cfg(test)]
mod nested;
