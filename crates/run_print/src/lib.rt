// Print: values with OFS between them, then ORS, whole or not at all.
#![tactic(auto)]

mod printing;

pub use printing::print;
