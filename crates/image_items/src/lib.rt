// What is where in an image: its header, texts, constants and instructions, read from its bytes.
#![tactic(auto)]

mod header;
mod items;

pub use header::{Header, header_of};
pub use items::{Constant, Fetched, Found, Text, constant_at, instruction_at, text_at};
