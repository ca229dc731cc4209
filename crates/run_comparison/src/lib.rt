// Comparison of the values of two operands, of numbers or of texts.
#![tactic(auto)]

mod comparing;

pub use comparing::compare;
