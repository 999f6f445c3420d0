//! New volumes.
#![tactic(auto)]

ghost use Rattle.std.specs.Prelude.{◌≡◌};

mod boot;
mod error;
mod index_laws;
mod item;
mod laws;
mod made;
mod new_volume;
mod options;
mod places;
mod record_blocks;
mod root;
mod rules;
mod stored;
mod system_values;
mod write;

pub use error::FormatNo;
pub use index_laws::planned_indexes;
pub use laws::{content_laws, item_laws, plan_laws, planned_laws};
pub use new_volume::format;
pub use options::FormatOptions;
pub use places::Places;
