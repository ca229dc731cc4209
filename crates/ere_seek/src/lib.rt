// The leftmost longest match of an ERE, by two finite automata that are made once from the ERE's table: one follows a
// single start, the other all starts before a place.
#![tactic(auto)]

mod one;
mod pending;
mod seeking;
mod starts;
mod states;

pub use seeking::seek;
