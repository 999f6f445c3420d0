//! What commands do that edit a volume in use.
#![tactic(auto)]

mod alone;
mod ask_to_move;
mod behind;
mod extent;
mod leave;
mod movable;
mod punch;
mod punchable;
mod room;
mod securable;
mod secure;
mod settable;
mod value;
mod writable;
mod write;

pub use alone::{find_to_drop, find_to_resize, is_alone, is_resizable};
pub use behind::free_beside;
pub use file_changes::{set_attributes, write_over};
pub use file_room::{Standard, Standing, Stop, ask_to_make, load_file, read_standard};
pub use punch::punch_value;
pub use punchable::find_punchable;
pub use room::clusters_for_bytes;
pub use securable::{Securable, find_securable};
pub use secure::set_security;
pub use settable::{Settable, can_edit, find_settable};
pub use value::fits_at;
pub use view_index::descriptor;
pub use writable::{Way, Writable};
pub use write::{find_writable, find_writable_through};
