// Numbers as decimal texts.
#![tactic(auto)]

mod decimal;

pub use decimal::{DECIMAL_BYTES, decimal_length, write_decimal};
