// Whether there is a match of an ERE in a text, by its table: one walk from all starts at once.
#![tactic(auto)]

mod any;

pub use any::exists;
