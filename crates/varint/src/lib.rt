// The numbers of an image, as LEB128 without needless groups: seven bits a byte, the low group first.
#![tactic(auto)]

mod numbers;
mod room;

pub use numbers::take_number;
pub use room::{put_byte, put_number};
