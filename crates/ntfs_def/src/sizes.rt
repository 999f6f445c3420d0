//! The numbers of a non-resident attribute.

/// The numbers of a non-resident attribute, which holds one extent of a stream. Lengths are in bytes
/// and count where `first` is 0.
///
/// Source: Linux-NTFS documentation, "Attribute Headers"; Carrier, File System Forensic Analysis,
/// chapter 13, the data structure of a non-resident attribute.
#[derive(Clone, Copy, Debug, PartialEq, Eq)]
pub struct Sizes {
    /// The bytes of the clusters that the stream has.
    pub allocated: u64,
    /// The bytes of the stream.
    pub real: u64,
    /// The bytes of the stream that were written. Those behind them read as zero.
    pub initialized: u64,
    /// The number, in the stream, of the first cluster of this extent.
    pub first: u64,
    /// The number of the last one; 2^64 - 1 where the stream has no cluster.
    pub last: u64,
}
