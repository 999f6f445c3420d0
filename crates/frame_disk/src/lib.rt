//! A disk that reads another by frames, and keeps some of them.
#![tactic(auto)]

mod file;
mod frames;
mod ranges;
#[cfg(test)]
mod tests;

pub use file::RangeFile;
pub use frames::FrameDisk;
pub use ranges::RangeDisk;
