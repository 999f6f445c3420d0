//! The check of one index: that its records hold a tree, that its keys ascend, and that a directory's are its names.
#![tactic(auto)]

ghost use Rattle.std.specs.Prelude.{◌≡◌};

mod check;
mod depth;
mod directory;
mod file;
mod gather;
mod laws;
mod met;
mod notes;
mod noting;
mod order;
mod records;
mod rules;
mod seen;
mod volume;
mod volume_index;

pub use check::check_index;
use file_record::FileNo;
pub use laws::{checked_directories, checked_indexes};
use mft_table::MountNo;
pub use records::IndexRecords;
pub use seen::Seen;
use std::alloc::{AllocError, AllocFailed};
use thiserror::Error;
pub use volume::check_dirs;

/// Why an index could not be checked.
#[derive(Clone, Copy, Debug, PartialEq, Eq, Error)]
pub enum CheckNo {
    /// The disk failed; the count of faults rose.
    #[error("the device failed")]
    Device,
    /// There was no memory.
    #[error("out of memory")]
    Memory,
}

impl From<AllocError> for CheckNo {
    ghost use Rattle.check_dirs.specs.declared.CheckNo.TheVariants.{Memory};

    ghost from_gives = { λ _ e. e ≡ Memory };

    fn from(_: AllocError) -> CheckNo {
        CheckNo::Memory
    }
}

impl<T: Drop> From<AllocFailed<T>> for CheckNo {
    ghost use Rattle.check_dirs.specs.declared.CheckNo.TheVariants.{Memory};

    ghost from_gives = { λ _ e. e ≡ Memory };

    fn from(_: AllocFailed<T>) -> CheckNo {
        CheckNo::Memory
    }
}

impl From<FileNo> for CheckNo {
    ghost use Rattle.check_dirs.specs.FileNos.{said_of_file};

    ghost from_gives = { λ no e. e ≡ said_of_file no };

    fn from(no: FileNo) -> CheckNo {
        match no {
            FileNo::Device => CheckNo::Device,
            _ => CheckNo::Memory,
        }
    }
}

impl From<CheckNo> for MountNo {
    ghost use Rattle.check_dirs.specs.Refusals.{fault_of};

    ghost from_gives = { λ check no. no ≡ fault_of check };

    fn from(no: CheckNo) -> MountNo {
        match no {
            CheckNo::Device => MountNo::Device,
            CheckNo::Memory => MountNo::Memory,
        }
    }
}
