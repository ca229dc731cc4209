// The translator: a filter's text to the bytes of its image.
#![tactic(auto)]

mod numbering;
mod translating;

pub use translating::{translate, translate_by};
