//! Why a call on a file fails.
ghost use Rattle.std.specs.Prelude.{◌≡◌};
ghost use Rattle.file_record.specs.declared.error.FileNo.TheVariants.{Memory};

use std::alloc::{AllocError, AllocFailed};
use thiserror::Error;

/// Why a call on a file fails.
#[derive(Clone, Copy, Debug, PartialEq, Eq, Error)]
pub enum FileNo {
    /// The disk failed; its count of faults rose.
    #[error("the device failed")]
    Device,
    /// There are too few free clusters.
    #[error("no room on the volume")]
    NoRoom,
    /// The table holds no more records, or record 0 no more of its runs.
    #[error("the table of records is full")]
    MftFull,
    /// The file's list names as many parts as a list can.
    #[error("the file has too many parts")]
    TooManyParts,
    /// There was no memory.
    #[error("out of memory")]
    Memory,
}

impl From<AllocError> for FileNo {
    ghost from_gives = { λ _ error. error ≡ Memory };

    fn from(_error: AllocError) -> FileNo {
        FileNo::Memory
    }
}

impl<T: Drop> From<AllocFailed<T>> for FileNo {
    ghost from_gives = { λ _ error. error ≡ Memory };

    fn from(_error: AllocFailed<T>) -> FileNo {
        FileNo::Memory
    }
}
