// Matches of an ERE, by its automaton or its table.
#![tactic(auto)]

mod matching;

pub use matching::{match_marked, matches};
