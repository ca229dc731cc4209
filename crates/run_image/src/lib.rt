// What a run keeps of its image: its constants, each decoded into a word, and the table that its EREs share.
#![tactic(auto)]

mod constants;
mod table;

pub use constants::{TEXTS, decode};
pub use table::{NO_ERE, compile, prepare};
