// Files and the command line: what is read goes after what a room already has, and what is written is written whole.
//
// What the system's calls do is assumed, as the library says. No contract can say which bytes a read gives; those here
// say that they lie inside the room, and that what the room had before them stays.
#![tactic(auto)]

mod growing;
mod joining;
mod reading;
mod words;
mod writing;

pub use growing::{Growing, fill_growing, separate_growing};
pub use joining::separate;
pub use reading::fill;
pub use words::{read_words, word_count};
pub use writing::write_whole;
