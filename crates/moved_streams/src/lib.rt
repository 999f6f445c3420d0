//! Laws with nothing to run: what a volume is where a stream that was a value moved into clusters.
#![tactic(auto)]

mod calls;

pub use calls::moved_calls;
