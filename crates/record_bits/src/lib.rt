//! The flag of a record that comes or goes, set or cleared in the stored bitmap of records.
#![tactic(auto)]

mod bit;
mod record_bit;
mod sector;

pub use record_bit::{can_store_record_bit, clear_record_bit, store_record_bit};
