// The bytes of a token: words, digits, operators by their spelling, and where a string or an ERE closes.
#![tactic(auto)]

mod bytes;
mod closings;
pub mod kinds;
mod spellings;

pub use bytes::{byte_at, is_letter, skip, word_length};
pub use closings::{ere_close, string_close};
pub use kinds::{
    BAD, BAD_ERE, CALL_PAREN, DIV_ASSIGN, ERE, NEWLINE, NUMBER, SLASH, STRING, TEXT_END, USER_NAME,
};
pub use spellings::{operator_kind, word_kind};
