//! Where a file, or a directory, can be made.
#![tactic(auto)]

mod edits;
mod find;
mod laws;
mod make;
mod record_free;
mod under;

pub use edits::can_edit_file;
pub use file_makes::make_file;
pub use find::find_to_make;
pub use laws::make_laws;
pub use name_places::NewPlace;
pub use tree_edit::{Standard, descriptor, read_standard, set_attributes};
pub use under::{name_key, share};
