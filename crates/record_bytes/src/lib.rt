//! Records, attributes and entries of an index as bytes, for what is made. They are laid out in memory.
#![tactic(auto)]

mod attribute;
mod entries;
mod new_record;

pub use attribute::{non_resident, push_fill, push_padded, push_wide, resident, up_to_8};
pub use entries::{LAST_ABOVE, LAST_ENTRY, index_root, push_name_entry, push_view_entry};
pub use new_record::{add_stream, add_value, blank, lay_record, put_front};
