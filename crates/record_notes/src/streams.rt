//! The streams whose values are checked, as a pass over the table notes them: both bitmaps and the table of case, each by the
//! parts that the records in use hold of it, so that no record has to be read again.
ghost use Rattle.record_notes.specs.Skips.{AreSkips};

mod attribute;
mod common;
mod note;
mod places;
mod value;

pub use attribute::is_unnamed;
use ntfs_def::Spot;

/// The part of a stream that tells its sizes.
#[derive(Debug, Drop)]
pub struct FirstPart {
    /// Whether the stream is compressed or encrypted.
    pub packed: bool,
    /// The bytes of the value.
    pub len: u64,
    /// The bytes that were written: of a value in the record all.
    pub written: u64,
    /// The value, where it stands in the record.
    pub value: Option<Vec<u8>>,
}

/// What the parts of a stream have in common.
#[derive(Clone, Copy, Debug)]
pub struct Placement {
    /// No run is a hole.
    pub placed: bool,
    /// No part is a value in a record.
    pub in_clusters: bool,
    /// The clusters, 2^64 - 1 where there are more.
    pub covered: u64,
}

/// Where the first clusters of a stream lie, by the first part that holds each.
#[derive(Debug, Drop)]
struct Spots {
    // `Outside` where no part holds it.
    spots: Vec<Spot>,
    // Of each place how many from it on are noted for sure, so that they are passed over at once.
    skips: Vec<usize>,
    ghost skipped: { AreSkips spots.items skips.items },
}

/// What is noted of a stream.
#[derive(Debug, Drop)]
pub struct StreamNote {
    /// The part that tells its sizes, `None` where there is none.
    pub first: Option<FirstPart>,
    pub placement: Placement,
    spots: Spots,
}

/// What is noted of the streams whose values are checked.
#[derive(Debug, Drop)]
pub struct Streams {
    /// The bitmap of clusters, the unnamed `$DATA` of `$Bitmap`.
    pub cluster_bits: StreamNote,
    /// The bitmap of records, the unnamed `$BITMAP` of `$MFT`.
    pub record_bits: StreamNote,
    /// The table of case, the unnamed `$DATA` of `$UpCase`.
    pub case_table: StreamNote,
}
