// Sets of places of an ERE as the states of its automata: the step on a byte, and a table in which each set is once.
#![tactic(auto)]

mod sets;

pub use sets::{ALL, Entered, ONE, PENDING, change, enter, first, last, later};
