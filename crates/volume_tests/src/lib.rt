//! Tests of whole volumes, by public calls: indexes that are checked, new volumes, and files by their numbers. They stand here, in a crate
//! above those that they test, so that each is proved once.
#![tactic(auto)]

#[cfg(test)]
mod by_number;
#[cfg(test)]
mod indexes;
#[cfg(test)]
mod new_records;
#[cfg(test)]
mod new_volumes;
