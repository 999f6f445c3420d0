//! The clauses of the volume definition on records, clusters and the table of case, decided on a disk: the first that
//! fails, with the least number that breaks it, or the tables of the volume.
#![tactic(auto)]

mod by_facts;
mod case_table;
mod check;
mod clusters;
mod files;
mod laws;
mod listed;
mod records;
mod scan;
mod start;
mod streams;
mod values;
mod wrong_files;

pub use check::{Checked, check_records, check_records_and_limits};
pub use files::mount_no_of;
pub use laws::one_answer;
