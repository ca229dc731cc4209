// An instruction as one word.
ghost use Rattle.std.specs.Prelude.{◌≡◌};
ghost use Rattle.program_words.specs.Words.{packed, Fits, op_in, depth_in, first_in, second_in};

use edition::Edition;

// The codes of the instructions.
pub const SECTION_END: u64 = 0;

pub const CONSTANT: u64 = 1;

pub const GET: u64 = 2;

pub const SET: u64 = 3;

pub const FIELD: u64 = 4;

pub const SET_FIELD: u64 = 5;

pub const DROP: u64 = 6;

pub const ADD: u64 = 7;

pub const SUBTRACT: u64 = 8;

pub const MULTIPLY: u64 = 9;

pub const DIVIDE: u64 = 10;

pub const REMAINDER: u64 = 11;

pub const NEGATE: u64 = 12;

pub const TO_NUMBER: u64 = 13;

pub const NOT: u64 = 14;

pub const LESS: u64 = 15;

pub const AT_MOST: u64 = 16;

pub const EQUAL: u64 = 17;

pub const DIFFERENT: u64 = 18;

pub const GREATER: u64 = 19;

pub const AT_LEAST: u64 = 20;

pub const JOIN: u64 = 21;

pub const MATCHES: u64 = 22;

pub const MATCH: u64 = 23;

pub const LENGTH: u64 = 24;

pub const INDEX: u64 = 25;

pub const SUBSTR: u64 = 26;

pub const JUMP: u64 = 27;

pub const JUMP_IF_FALSE: u64 = 28;

pub const PRINT: u64 = 29;

pub const NEXT: u64 = 30;

pub const EXIT: u64 = 31;

// The operands of the implied numbers 0 and 1, larger than any place of a text.
pub const ZERO: u64 = Edition::FILTER_TEXT as u64;

pub const ONE: u64 = Edition::FILTER_TEXT as u64 + 1;

// What a depth and each of the operands are multiplied with in a word, and how many depths and operands there are.
const DEPTH: u64 = 256;

const FIRST: u64 = 16777216;

const SECOND: u64 = 17592186044416;

const DEPTHS: u64 = 65536;

const OPERANDS: u64 = 1048576;

// Packs an instruction: its code, the depth before it, and two operands.
pub fn instruction(op: u64, depth: u64, first: u64, second: u64) -> u64
    requires { Fits op depth first second }
    ensures { result ≡ packed op depth first second }
{
    op + DEPTH * depth + FIRST * first + SECOND * second
}

// Returns the code of a packed instruction.
pub fn op_in(word: u64) -> u64
    ensures { result ≡ op_in word }
{
    word % DEPTH
}

// Returns the depth before a packed instruction.
pub fn depth_in(word: u64) -> u64
    ensures { result ≡ depth_in word }
{
    word / DEPTH % DEPTHS
}

// Returns the first operand of a packed instruction.
pub fn first_in(word: u64) -> u64
    ensures { result ≡ first_in word }
{
    word / FIRST % OPERANDS
}

// Returns the second operand of a packed instruction.
pub fn second_in(word: u64) -> u64
    ensures { result ≡ second_in word }
{
    word / SECOND
}
