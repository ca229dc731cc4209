// The table of an ERE: its position (Glushkov) automaton, as words. The positions are the ERE's places. Rows 0 and 1
// are its first sets, of a match that starts at the text's start and of one that starts elsewhere, and row p + 2 is the
// follow set of place p: bit sets, with accept bits where the automaton may stop. Each place has a class, the set of
// the bytes that it accepts. Here is what is where, and how the parser builds it.
#![tactic(auto)]

mod build;
mod layout;

pub use build::{
    link, link_row, link_rows, or_stop, put_class, put_first_bytes, put_row, put_three, single,
    union,
};
pub use layout::{
    ACCEPT, ACCEPT_AT_END, BEGIN, CLASSES, EMPTY, NOTHING, PLACES, ROWS, TABLE_WORDS, has,
};
