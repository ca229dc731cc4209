// EREs: `compile`, and the match of an ERE in a text.
#![tactic(auto)]

mod matching;

pub use matching::{Refusal, compile, search};
