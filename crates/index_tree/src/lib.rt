//! The trees of indexes: a key is found in one, and all entries of one are walked in order.
#![tactic(auto)]

ghost use Rattle.std.specs.Prelude.{◌≡◌};

mod descent;
mod insertion;
mod laws;
mod removal;
mod replacement;
mod seek;
mod walk;

pub use index_node::{BlockNo, Blocks, WriteBlocks};
pub use laws::{one_walk, ordered_walks};
use ntfs_def::NodeForm;
use std::alloc::{AllocError, AllocFailed};
use thiserror::Error;

/// An index of a file: the order of its keys, what its entries are, and the most bytes of entries that an edit leaves
/// in its root where it does not shrink it.
#[derive(Debug, Drop)]
pub struct Index<C> {
    order: C,
    form: NodeForm,
    limit: usize,
}

/// Why a call on an index fails.
#[derive(Clone, Copy, Debug, PartialEq, Eq, Error)]
pub enum IndexNo {
    /// The disk failed; the count of faults rose.
    #[error("the device failed")]
    Device,
    /// There is no room for an index record; the count of calls without room rose.
    #[error("no room for an index record")]
    NoRoom,
    /// There was no memory.
    #[error("out of memory")]
    Memory,
}

impl From<AllocError> for IndexNo {
    ghost use Rattle.index_tree.specs.declared.IndexNo.TheVariants.{Memory};

    ghost from_gives = { λ _ e. e ≡ Memory };

    fn from(_: AllocError) -> IndexNo {
        IndexNo::Memory
    }
}

impl<T: Drop> From<AllocFailed<T>> for IndexNo {
    ghost use Rattle.index_tree.specs.declared.IndexNo.TheVariants.{Memory};

    ghost from_gives = { λ _ e. e ≡ Memory };

    fn from(_: AllocFailed<T>) -> IndexNo {
        IndexNo::Memory
    }
}

impl From<BlockNo> for IndexNo {
    ghost use Rattle.index_tree.specs.Index.{index_no_of};

    ghost from_gives = { λ block e. e ≡ index_no_of block };

    fn from(no: BlockNo) -> IndexNo {
        match no {
            BlockNo::Device => IndexNo::Device,
            BlockNo::NoRoom => IndexNo::NoRoom,
            BlockNo::Memory => IndexNo::Memory,
        }
    }
}
