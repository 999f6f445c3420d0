//! Why a report could not be made.
ghost use Rattle.std.specs.Prelude.{◌≡◌};
ghost use Rattle.shell.specs.declared.stop.Stop.TheVariants.{Memory};

use std::alloc::AllocError;

/// Why a report could not be made.
#[derive(Clone, Copy, Debug, PartialEq, Eq)]
pub enum Stop {
    /// The disk failed.
    Device,
    /// Memory ran out.
    Memory,
}

impl From<AllocError> for Stop {
    ghost from_gives = { λ _ stop. stop ≡ Memory };

    fn from(_error: AllocError) -> Stop {
        Stop::Memory
    }
}
