//! A stream of a file without an attribute list has other bytes, or goes: a value in its record, or clusters that are given back or taken.
#![tactic(auto)]

mod extents;
mod leaving;
mod longer;
mod moving;
mod part;
mod run;
mod streams;
mod values;

pub use streams::{remove_stream, resize_stream, write_stream};
// What finds, sets and stages all else of a file, for the crate above, which so need not name `tree_edit`.
pub use tree_edit::{
    Securable, Settable, Way, Writable, find_punchable, find_securable, find_settable,
    find_to_drop, find_to_resize, find_writable, find_writable_through, punch_value,
    set_attributes, set_security,
};
