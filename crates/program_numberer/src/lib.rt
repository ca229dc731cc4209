// Operands by number: each word's place in the text becomes the number of what it names.
#![tactic(auto)]

mod numbering;

pub use numbering::number;
