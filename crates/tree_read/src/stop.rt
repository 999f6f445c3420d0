//! Why a command stops.
ghost use Rattle.std.specs.Prelude.{◌≡◌};

use file_record::FileNo;
use std::alloc::{AllocError, AllocFailed};
use tree_model::No;

/// Why a command stops before its answer.
#[derive(Clone, Copy, Debug, PartialEq, Eq)]
pub enum Stop {
    /// It is refused.
    No(No),
    /// The disk failed; its count of faults rose.
    Device,
}

impl From<AllocError> for Stop {
    ghost use Rattle.tree_model.specs.declared.reply.No.TheVariants.{Memory};
    ghost use Rattle.tree_read.specs.declared.stop.Stop.TheVariants as stop;

    ghost from_gives = { λ _ e. e ≡ stop.No Memory };

    fn from(_: AllocError) -> Stop {
        Stop::No(No::Memory)
    }
}

impl<T: Drop> From<AllocFailed<T>> for Stop {
    ghost use Rattle.tree_model.specs.declared.reply.No.TheVariants.{Memory};
    ghost use Rattle.tree_read.specs.declared.stop.Stop.TheVariants as stop;

    ghost from_gives = { λ _ e. e ≡ stop.No Memory };

    fn from(_: AllocFailed<T>) -> Stop {
        Stop::No(No::Memory)
    }
}

impl From<No> for Stop {
    ghost use Rattle.tree_read.specs.declared.stop.Stop.TheVariants as stop;

    ghost from_gives = { λ no e. e ≡ stop.No no };

    fn from(no: No) -> Stop {
        Stop::No(no)
    }
}

impl From<FileNo> for Stop {
    ghost use Rattle.tree_read.specs.Answered.{stop_of};

    ghost from_gives = { λ file e. e ≡ stop_of file };

    fn from(no: FileNo) -> Stop {
        match no {
            FileNo::Device => Stop::Device,
            FileNo::NoRoom | FileNo::MftFull | FileNo::TooManyParts | FileNo::Memory => {
                Stop::No(No::Memory)
            }
        }
    }
}
