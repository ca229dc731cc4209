// The reader of items and whole programs: it reads a text once, by its tokens, and writes the code of each
// section.
#![tactic(auto)]

mod programs;

pub use programs::{Program, read_program};
