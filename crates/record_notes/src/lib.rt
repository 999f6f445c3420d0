//! What one pass over the table of records notes of a volume. Nothing here reads a disk.
#![tactic(auto)]

mod bits;
mod facts;
mod heads;
mod least;
mod limits;
mod names;
mod owners;
mod spread;
mod streams;
mod unlisted;
mod used;

pub use facts::Facts;
pub use heads::{Head, Heads};
pub use least::least_of;
pub use limits::LongStreams;
pub use names::{DOS, NameFact, Names, WIN32, file_of};
pub use owners::{Owners, cluster_bits_laws};
pub use spread::{Extension, SpreadFiles, split_file};
pub use streams::{Placement, StreamNote, Streams};
pub use unlisted::UnlistedFiles;
pub use used::{Used, used_laws};
