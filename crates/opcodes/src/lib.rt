// The instruction set: the table of codes (opcodes) and the special variables.
#![tactic(auto)]

mod codes;
mod variables;

pub use codes::{
    ADD, ASSIGNABLE, AT_LEAST, AT_MOST, CONSTANT, COUNT, DIFFERENT, DIVIDE, END, EQUAL, ERE, EXIT,
    GREATER, INSTRUCTION, JUMP, JUMP_IF_FALSE, LESS, MULTIPLY, NEXT, NOTHING, REMAINDER, SUBTRACT,
    VARIABLE, known_code, known_edition, operands, row,
};
pub use variables::{FIELD_COUNT, RECORD_COUNT, STORED, assignable, source, specials};
