// What an automaton has of its bytes, from the table of an ERE: the class of each, and the ranges of a match's first
// two bytes.
#![tactic(auto)]

mod classes;
mod hull;
mod layout;
mod reach;
mod sets;

pub use classes::put_classes;
pub use hull::{ends, has_class, led, put_hull};
pub use layout::MOST_CLASSES;
pub use reach::is_empty;
pub use sets::set_at;
