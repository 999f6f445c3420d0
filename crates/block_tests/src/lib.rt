//! Tests of bytes, disks, blocks and staged writes, by public calls. They stand here, in a crate above those that they test, so that
//! each is proved once.
#![tactic(auto)]

#[cfg(test)]
mod attribute_lists;
#[cfg(test)]
mod bitmaps;
#[cfg(test)]
mod boot_sectors;
#[cfg(test)]
mod bytes;
#[cfg(test)]
mod case_table;
#[cfg(test)]
mod disks;
#[cfg(test)]
mod error_texts;
#[cfg(test)]
mod layouts;
#[cfg(test)]
mod marks;
#[cfg(test)]
mod orders;
#[cfg(test)]
mod records;
#[cfg(test)]
mod runs;
#[cfg(test)]
mod stages;
#[cfg(test)]
mod update_sequences;
