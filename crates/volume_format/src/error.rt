//! Why no volume was made.
ghost use Rattle.std.specs.Prelude.{◌≡◌};

use std::alloc::AllocError;
use thiserror::Error;
use vol_disk::Failed;

/// Why no volume was made.
#[derive(Clone, Copy, Debug, PartialEq, Eq, Error)]
pub enum FormatNo {
    /// An option is out of its range.
    #[error("an option is out of its range")]
    Options,
    /// The disk failed.
    #[error("the disk failed")]
    Device,
    /// There is no memory.
    #[error("out of memory")]
    Memory,
}

impl From<AllocError> for FormatNo {
    ghost use Rattle.volume_format.specs.declared.error.FormatNo.TheVariants.{Memory};

    ghost from_gives = { λ _ error. error ≡ Memory };

    fn from(_: AllocError) -> FormatNo {
        FormatNo::Memory
    }
}

impl From<Failed> for FormatNo {
    ghost use Rattle.volume_format.specs.declared.error.FormatNo.TheVariants.{Device};

    ghost from_gives = { λ _ error. error ≡ Device };

    fn from(_: Failed) -> FormatNo {
        FormatNo::Device
    }
}
