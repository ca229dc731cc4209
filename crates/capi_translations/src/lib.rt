// What the C function that translates a filter text does.
#![tactic(auto)]

mod translations;

pub use translations::translate_text;
