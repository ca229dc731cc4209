// What is known of the bytes of an ERE's matches, from its table: that the ERE is a word.
#![tactic(auto)]

mod layout;
mod leads;
mod word;

pub use word::put_word;
