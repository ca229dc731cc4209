// The lexer: the token at a place of a filter text, and an ERE read again from a slash.
#![tactic(auto)]

mod tokens;

pub use tokens::{Token, as_operand, token_after, token_at, token_of};
