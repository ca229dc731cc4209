// Writing an image from its content words.
#![tactic(auto)]

mod writing;

pub use writing::write;
