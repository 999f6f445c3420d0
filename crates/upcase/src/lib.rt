//! The table of case of a volume: what each unit of a name is compared as.
#![tactic(auto)]

ghost use Rattle.std.specs.Prelude.{◌≡◌};

mod table;

use std::alloc::{AllocError, AllocFailed};
pub use table::UpCase;
use thiserror::Error;

/// Why there is no table.
#[derive(Clone, Copy, Debug, PartialEq, Eq, Error)]
pub enum UpCaseNo {
    /// The bytes are not 131,072.
    #[error("the table of case has a wrong length")]
    Length,
    /// There was no memory.
    #[error("out of memory")]
    Memory,
}

impl From<AllocError> for UpCaseNo {
    ghost use Rattle.upcase.specs.declared.UpCaseNo.TheVariants.{Memory};

    ghost from_gives = { λ _ e. e ≡ Memory };

    fn from(_: AllocError) -> UpCaseNo {
        UpCaseNo::Memory
    }
}

impl<T: Drop> From<AllocFailed<T>> for UpCaseNo {
    ghost use Rattle.upcase.specs.declared.UpCaseNo.TheVariants.{Memory};

    ghost from_gives = { λ _ e. e ≡ Memory };

    fn from(_: AllocFailed<T>) -> UpCaseNo {
        UpCaseNo::Memory
    }
}
