// Brackets of EREs: read from bytes, as four words of bits.
#![tactic(auto)]

pub mod brackets;
