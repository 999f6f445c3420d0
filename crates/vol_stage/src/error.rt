//! Why a call on a stage fails.
ghost use Rattle.std.specs.Prelude.{◌≡◌};
ghost use Rattle.vol_stage.specs.declared.error.StageNo.TheVariants.{Device};

use thiserror::Error;
use vol_disk::Failed;

/// Why a call on a stage fails.
#[derive(Clone, Copy, Debug, PartialEq, Eq, Error)]
pub enum StageNo {
    /// The disk failed; its count of faults rose.
    #[error("the device failed")]
    Device,
    /// There was no memory for more staged sectors.
    #[error("out of memory")]
    Memory,
}

impl From<Failed> for StageNo {
    ghost from_gives = { λ _ error. error ≡ Device };

    fn from(_: Failed) -> StageNo {
        StageNo::Device
    }
}
