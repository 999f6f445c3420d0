//! Why a volume is not closed.
use thiserror::Error;

/// Why a volume is not settled or closed.
#[derive(Clone, Copy, Debug, PartialEq, Eq, Error)]
pub enum CloseNo {
    /// The disk failed; its count of faults rose.
    #[error("the device failed")]
    Device,
}
