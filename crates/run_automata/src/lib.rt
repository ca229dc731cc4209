// Finite automata of an image's EREs, made for the instructions that ask for them.
#![tactic(auto)]

mod automata;
mod uses;

pub use automata::{POOL_WORDS, automaton_of, load_eres};
