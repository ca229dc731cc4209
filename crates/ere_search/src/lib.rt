// The leftmost longest match of an ERE in a text: a simulation of its position (Glushkov) automaton on bit sets. The
// live set has the places that may come next; a step on a byte takes it to the union of the follow sets of those places
// that accept the byte.
#![tactic(auto)]

mod search;
mod words;

pub use search::{dead, find_from, may_be_empty, may_begin, stops};
pub use words::{step, with_row};
