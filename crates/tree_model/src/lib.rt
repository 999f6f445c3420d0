//! The tree that a volume reads as, the commands of a script, and what comes of them.
#![tactic(auto)]

mod command;
mod laws;
mod lists;
mod opens;
mod ranges;
mod reply;
mod text;
mod tree;

pub use command::Command;
pub use laws::{
    edited_reading_laws, empty_bill_laws, has_facts, index_room_laws, one_descriptor, one_facts,
    one_reading, one_reply, reading_laws,
};
pub use lists::{Listing, Path, RawAttrs, ShownLinks, ShownStreams, Streams};
pub use opens::{Access, OpenEntry};
pub use ranges::{is_wide, range};
pub use reply::{Answer, Listed, No, Reply, ShownLink, ShownStream};
pub use text::path_text;
pub use tree::{Content, Found, Link, Node, Point, RawAttr, SHOWN_FLAGS, Stream, compare_links};
