// An instruction as a word.
#![tactic(auto)]

pub mod words;

pub use words::{
    ADD, AT_LEAST, AT_MOST, CONSTANT, DIFFERENT, DIVIDE, DROP, EQUAL, EXIT, FIELD, GET, GREATER,
    INDEX, JOIN, JUMP, JUMP_IF_FALSE, LENGTH, LESS, MATCH, MATCHES, MULTIPLY, NEGATE, NEXT, NOT,
    PRINT, REMAINDER, SECTION_END, SET, SET_FIELD, SUBSTR, SUBTRACT, TO_NUMBER, depth_in, first_in,
    instruction, op_in, second_in,
};
