//! Why the table is not found, and why a record of it is not read.
ghost use Rattle.std.specs.Prelude.{◌≡◌};
ghost use Rattle.mft_table.specs.declared.error.MftNo.TheVariants as mft;
ghost use Rattle.mft_table.specs.declared.error.TableNo.TheVariants as table;
ghost use Rattle.mft_table.specs.StageCauses.{mft_no, table_no};

use ntfs_boot::BootFault;
use std::alloc::AllocError;
use thiserror::Error;
use vol_stage::StageNo;

/// Why the table of records is not found.
#[derive(Clone, Copy, Debug, PartialEq, Eq, Error)]
pub enum TableNo {
    /// The boot clause of the volume definition fails.
    #[error("the boot sector is refused: {0}")]
    Boot(BootFault),
    /// The table clause of the volume definition fails.
    #[error("record 0 does not tell where the table of records lies")]
    Table,
    /// The disk failed; its count of faults rose.
    #[error("the device failed")]
    Device,
    /// There was no memory for the table's runs.
    #[error("out of memory")]
    Memory,
}

impl From<StageNo> for TableNo {
    ghost from_gives = { λ stage error. error ≡ table_no stage };

    fn from(error: StageNo) -> TableNo {
        match error {
            StageNo::Device => TableNo::Device,
            StageNo::Memory => TableNo::Memory,
        }
    }
}

impl From<AllocError> for TableNo {
    ghost from_gives = { λ _ error. error ≡ table.Memory };

    fn from(_error: AllocError) -> TableNo {
        TableNo::Memory
    }
}

/// Why a call on the table of records fails.
#[derive(Clone, Copy, Debug, PartialEq, Eq, Error)]
pub enum MftNo {
    /// The disk failed; its count of faults rose.
    #[error("the device failed")]
    Device,
    /// The stored block does not open: its update sequence array is wrong, or a stride does not end with the number.
    #[error("record {number} does not open")]
    Torn { number: u64 },
    /// There are too few free clusters.
    #[error("no room on the volume")]
    NoRoom,
    /// The table holds no more records, or record 0 no more of its runs.
    #[error("the table of records is full")]
    MftFull,
    /// There was no memory.
    #[error("out of memory")]
    Memory,
}

impl From<StageNo> for MftNo {
    ghost from_gives = { λ stage error. error ≡ mft_no stage };

    fn from(error: StageNo) -> MftNo {
        match error {
            StageNo::Device => MftNo::Device,
            StageNo::Memory => MftNo::Memory,
        }
    }
}

impl From<AllocError> for MftNo {
    ghost from_gives = { λ _ error. error ≡ mft.Memory };

    fn from(_error: AllocError) -> MftNo {
        MftNo::Memory
    }
}
