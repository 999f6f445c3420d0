//! A script run on a volume: its lines are answered one after another, and the volume is closed.
#![tactic(auto)]

mod draws;
mod end;
mod laws;
mod made;
mod run;
mod tally;
mod turn;

pub use end::ScriptEnd;
pub use laws::written_laws;
pub use made::run_made;
pub use run::run_script;
pub use tree_ops::Volume;
