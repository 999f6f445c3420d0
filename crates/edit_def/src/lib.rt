//! What an edit keeps, takes and makes of a volume: one promise for all calls that edit.
#![tactic(auto)]

mod laws;

pub use laws::{
    calls_in_turn, kept_files, kept_indexes, low_clauses, refusals_in_turn, room_taken,
};
