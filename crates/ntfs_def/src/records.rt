//! The records of the system's files, by their numbers in the table.
//!
//! Source: Linux-NTFS documentation, "System Files"; Carrier, File System Forensic Analysis, chapter 11, the table of
//! file system metadata files.

/// `$MFT`: the table of records itself.
pub const MFT: u64 = 0;

/// `$MFTMirr`: copies of the first records of the table.
pub const MFT_MIRROR: u64 = 1;

/// `$LogFile`: the log.
pub const LOG_FILE: u64 = 2;

/// `$Volume`: the volume's name and version.
pub const VOLUME: u64 = 3;

/// The root directory.
pub const ROOT: u64 = 5;

/// `$Bitmap`: which clusters are taken.
pub const CLUSTER_BITMAP: u64 = 6;

/// `$Boot`: the boot sector, in cluster 0.
pub const BOOT: u64 = 7;

/// `$BadClus`: the clusters that cannot be used.
pub const BAD_CLUSTERS: u64 = 8;

/// `$Secure`: security descriptors.
pub const SECURE: u64 = 9;

/// `$UpCase`: the table of case.
pub const UPCASE: u64 = 10;

/// `$Extend`: the directory of further files of the system.
pub const EXTEND: u64 = 11;

/// The first record that is none of the system's: records before it are base records.
pub const SYSTEM_END: u64 = 12;

/// The first record of ordinary files.
pub const FIRST_ORDINARY: u64 = 24;
