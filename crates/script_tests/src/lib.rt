//! Whole runs of scripts that read, over a disk, a script and a sink in memory, and the lines of a script. They stand here, in a crate
//! above `shell`, so that it is proved once.
#![tactic(auto)]

#[cfg(test)]
mod deep;
#[cfg(test)]
mod lines;
#[cfg(test)]
mod lists;
#[cfg(test)]
mod opens;
#[cfg(test)]
mod reading;
#[cfg(test)]
mod script;
