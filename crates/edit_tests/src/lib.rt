//! Whole runs of scripts that edit, over a disk, a script and a sink in memory. They stand here, in a crate above `shell`, so that it
//! is proved once.
#![tactic(auto)]

#[cfg(test)]
mod clusters;
#[cfg(test)]
mod edits;
#[cfg(test)]
mod growth;
#[cfg(test)]
mod longer;
#[cfg(test)]
mod longer_kinds;
#[cfg(test)]
mod longer_room;
#[cfg(test)]
mod moves;
#[cfg(test)]
mod values;
#[cfg(test)]
mod writes;
