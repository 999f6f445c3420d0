//! Streams while they are written, cut and punched, and what a reading shows of a file of which one stream changed. Laws with nothing to
//! run.
#![tactic(auto)]

mod reading;
mod steps;

pub use reading::{node_read, stream_call, streams_read};
pub use steps::{
    machine_bytes, met_edits, placed_in_turn, shown_lists, shown_steps, shown_value, shown_write,
    stream_in_place, zeros_around,
};
