//! The version of a volume.

/// The version of NTFS that a volume has.
///
/// Source: Linux-NTFS documentation, attribute $VOLUME_INFORMATION.
#[derive(Clone, Copy, Debug, PartialEq, Eq)]
pub struct Version {
    pub major: u8,
    pub minor: u8,
}
