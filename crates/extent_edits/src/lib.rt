//! The extent of a stream, cut in its record, or longer by a run; and its runs, of which those behind a cluster are told.
#![tactic(auto)]

mod attribute;
mod behind;
mod extend;
mod extent;
mod longer;
mod longer_text;
mod numbers;
mod parts;
mod text;
mod with_run;

pub use behind::runs_behind;
pub use extend::extend_extent;
pub use extent::cut_extent;
pub use numbers::clusters_for;
pub use parts::runs_of_part;
pub use with_run::runs_with;
