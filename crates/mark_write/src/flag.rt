//! Where the dirty flag lies.

/// Where the dirty flag of a volume lies: the sector of record 3 that holds it, that of the record's
/// copy in the mirror, and the byte in both. An edit never moves it.
///
/// Source: Linux-NTFS documentation, attribute $VOLUME_INFORMATION.
#[derive(Clone, Copy, Debug, PartialEq, Eq, Drop)]
pub struct Flag {
    pub home: u64,
    pub copy: u64,
    pub at: usize,
}
