//! Why a volume is not taken into use.
ghost use Rattle.std.specs.Prelude.{◌≡◌};
ghost use Rattle.mft_table.specs.MountNos.{no_memory, no_stage, no_table};

use crate::TableNo;
use std::alloc::AllocError;
use thiserror::Error;
use vol_stage::StageNo;

/// Why a volume is not taken into use.
#[derive(Clone, Copy, Debug, PartialEq, Eq, Error)]
pub enum MountNo {
    /// The first clause of the volume definition that fails, by the number in its name, S1 to S15, and the least number
    /// that breaks it.
    #[error("the volume breaks S{clause} at {number}")]
    Refused { clause: u8, number: u64 },
    /// The volume is sound, but was not closed.
    #[error("the volume was not closed")]
    Dirty,
    /// The disk failed; its count of faults rose.
    #[error("the device failed")]
    Device,
    /// There was no memory.
    #[error("out of memory")]
    Memory,
}

impl From<StageNo> for MountNo {
    ghost from_gives = { λ stage error. error ≡ no_stage stage };

    fn from(error: StageNo) -> MountNo {
        match error {
            StageNo::Device => MountNo::Device,
            StageNo::Memory => MountNo::Memory,
        }
    }
}

impl From<AllocError> for MountNo {
    ghost from_gives = { λ _ error. error ≡ no_memory };

    fn from(_error: AllocError) -> MountNo {
        MountNo::Memory
    }
}

impl From<TableNo> for MountNo {
    ghost from_gives = { λ table error. error ≡ no_table table };

    fn from(error: TableNo) -> MountNo {
        match error {
            TableNo::Boot(fault) => MountNo::Refused {
                clause: 1,
                number: u64::from(fault.number()),
            },
            TableNo::Table => MountNo::Refused {
                clause: 2,
                number: 0,
            },
            TableNo::Device => MountNo::Device,
            TableNo::Memory => MountNo::Memory,
        }
    }
}
