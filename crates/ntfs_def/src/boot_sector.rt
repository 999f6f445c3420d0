//! The boot sector: where its fields stand.
//!
//! Source: Linux-NTFS documentation, file $Boot; Carrier, File System Forensic Analysis, chapter 13, the data structure of the
//! boot sector.

/// The name of the file system.
pub const NAME: usize = 0x03;

/// Bytes per sector.
pub const SECTOR_SIZE: usize = 0x0B;

/// Sectors per cluster.
pub const CLUSTER_SECTORS: usize = 0x0D;

/// The sectors of the volume, without the one behind them that holds the backup boot sector.
pub const SECTORS: usize = 0x28;

/// The first cluster of `$MFT`.
pub const MFT: usize = 0x30;

/// The first cluster of `$MFTMirr`.
pub const MIRROR: usize = 0x38;

/// The size of a file record, spelled in a signed byte.
pub const RECORD_SIZE: usize = 0x40;

/// The size of an index record, spelled alike.
pub const INDEX_SIZE: usize = 0x44;

/// The serial number.
pub const SERIAL: usize = 0x48;

/// The end mark.
pub const END_MARK: usize = 0x1FE;
