// Words in a block of bytes, each ended by a NUL, as the words of a command line are handed over.
#![tactic(auto)]

mod words;

pub use words::{Span, WordEnd, find_word, word_at};
