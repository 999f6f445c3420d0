//! Tests of the table of records, of files and of what is noted of their records, by public calls. They stand here, in a
//! crate above those that they test, so that each is proved once, and none is proved anew for a test.
#![tactic(auto)]

#[cfg(test)]
mod cluster_owners;
#[cfg(test)]
mod error_texts;
#[cfg(test)]
mod extents;
#[cfg(test)]
mod file_parts;
#[cfg(test)]
mod file_table;
#[cfg(test)]
mod laid;
#[cfg(test)]
mod parents;
#[cfg(test)]
mod records_in_use;
#[cfg(test)]
mod stream_parts;
