// Writes instructions before their names, constants and EREs have numbers: one word each, stored where there is room.
// Counting goes on past the room, so that a size that is passed shows in the count.
#![tactic(auto)]

mod runs;

pub use runs::{emit, emit_both, emit_either, emit_ere, emit_print, put};
