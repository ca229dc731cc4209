// Finite automata from the table of an ERE, for the existence of a match and for the leftmost longest: the sets of
// places that can be reached, a row for each, and the states after two bytes.
#![tactic(auto)]

mod both;
mod build;
mod layout;
mod pairs;
mod rows;

pub use both::derive_both;
pub use build::derive;
