// Whether an ERE has a match in a text, by a finite automaton that is made once from the ERE's table.
#![tactic(auto)]

mod any;
mod blocks;
mod layout;
mod words;

pub use any::{exists, next_block};
pub use blocks::pair;
pub use layout::{
    ACCEPTED, BLOCK, CLASS_COUNT, CLASSES, EMPTY, FIRST, LATER, LENGTH, PAIRS, SKIPS,
};
