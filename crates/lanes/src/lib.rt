// Bytes in slices, many at a time: the first place of a byte, of one of two, or of a part.
#![tactic(auto)]

mod blocks;
mod pairs;
mod parts;
mod search;
mod words;

pub use blocks::any_in_32;
pub use pairs::{first_byte_from, first_of_two, past_two};
pub use parts::find;
pub use search::first_byte;
pub use words::{first_in_8, lanes_of, zero_lane};
