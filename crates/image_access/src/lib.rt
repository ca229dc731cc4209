// From an index to what is in the image.
#![tactic(auto)]

mod access;

pub use access::{constant, constant_bytes, ere_bytes, instruction};
