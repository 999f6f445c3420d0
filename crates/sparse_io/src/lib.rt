//! The streams of a file: which there are, and bytes of one.
#![tactic(auto)]

mod behind;
mod find;
mod held;
mod over;
mod read;
mod runs;
mod write;

pub use attr_store::{
    FileNo, FileParts, FirstPart, Stored, find_first, has_list, is_of, read_stored, read_value,
    spot_at,
};
pub use behind::{clusters_behind, clusters_covered};
pub use find::{FoundStream, find_stream, list_streams};
pub use over::{goes_over, look_at_names};
pub use read::{read_at, read_stream};
pub use runs::write_runs;
pub use write::overwrite;
