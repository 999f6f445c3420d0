//! Clusters given back and taken, in memory and in the stored bitmap.
#![tactic(auto)]

mod flags;
mod free;
mod give;
mod held;
mod range;
mod take;

pub use free::free_run;
pub use give::give_back;
pub use held::bits_are_placed;
pub use take::take_run;
