//! The table of records of a volume: where it lies, and its records by number.
#![tactic(auto)]

mod blocks;
mod changes;
mod error;
mod find;
mod mft;
mod mount;
mod mounted;

pub use blocks::{BlockReader, read_two_sectors};
pub use data_runs::{RunList, read_runs};
pub use error::{MftNo, TableNo};
pub use find::{Table, find_table, open_record, read_boot_sector};
pub use mft::Mft;
pub use mount::MountNo;
pub use mounted::Mounted;
