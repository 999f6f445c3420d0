//! Values of attributes, over all extents of a file.
#![tactic(auto)]

mod extents;
mod first;
mod list;
mod read;
mod spot;
mod stored;
mod write;

pub use data_runs::Spot;
pub use file_record::{FileNo, FileParts, Mft, load_base};
pub use first::{FirstPart, find_first, first_here, is_first, is_of, real_size};
pub use list::has_list;
pub use read::{read_value, spanned_len};
pub use spot::spot_at;
pub use stored::{Stored, read_stored, stored_of};
pub use write::{find_run, write_stored};
