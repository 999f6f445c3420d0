//! The parts of a file: the records that hold them, read by following the file's attribute list.
#![tactic(auto)]

mod attributes;
mod base;
mod create;
mod error;
mod extension;
mod held;
mod iter;
mod laws;
mod links;
mod list;
mod load;
mod numbers;
mod parts;
mod record;
mod sizes;
mod taken;
mod write;

pub use base::{BaseFile, load_base};
pub use error::FileNo;
pub use held::Held;
pub use iter::FileAttributes;
pub use laws::base_law;
pub use list::{list_of, read_list};
pub use mft_table::Mft;
pub use parts::{FileParts, PartPlace};
