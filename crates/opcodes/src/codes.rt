// The table of codes: which there are, what each takes and leaves, and what it names.
ghost use Rattle.std.specs.Prelude.{◌≡◌};
ghost use Rattle.image_format.specs.Codes.{code_of};
ghost use Rattle.image_format.specs.Image.{known};
ghost use Rattle.opcodes.specs.Rows.{is_known, row_in, operands_in};

use edition::Edition;

// The codes that go by their number elsewhere too.
pub const END: u64 = 0;

pub const ADD: u64 = 7;

pub const SUBTRACT: u64 = 8;

pub const MULTIPLY: u64 = 9;

pub const DIVIDE: u64 = 10;

pub const REMAINDER: u64 = 11;

pub const LESS: u64 = 15;

pub const AT_MOST: u64 = 16;

pub const EQUAL: u64 = 17;

pub const DIFFERENT: u64 = 18;

pub const GREATER: u64 = 19;

pub const AT_LEAST: u64 = 20;

pub const JUMP: u64 = 27;

pub const JUMP_IF_FALSE: u64 = 28;

pub const NEXT: u64 = 30;

pub const EXIT: u64 = 31;

// What a number of an instruction names; its rule goes with it.
pub const NOTHING: u64 = 0;

pub const CONSTANT: u64 = 1;

pub const VARIABLE: u64 = 2;

pub const ERE: u64 = 3;

pub const INSTRUCTION: u64 = 4;

pub const COUNT: u64 = 5;

pub const ASSIGNABLE: u64 = 6;

const CODES: u64 = 32;

// A row for each code, 16 bits each, the low ones first: what the code takes, 4 times what it leaves, and 8 and 64
// times what its first and its second number name. A print takes as many as it names. An array of 32 numbers would be
// written to the stack at each look.
const ROWS: [u64; 8] = [
    0x00350014000c0000,
    0x0006000100060005,
    0x0006000600060006,
    0x0006000500050005,
    0x0006000600060006,
    0x001d001d00060006,
    0x0020000700060005,
    0x0000000000280021,
];

// Tells whether there is an edition of this number.
pub fn known_edition(edition: u64) -> bool
    ensures { result ≡ known edition }
{
    edition == Edition::FIRST
}

// Tells whether an edition has a code.
pub fn known_code(edition: u64, code: u64) -> bool
    ensures { result ≡ is_known (code_of edition code) }
{
    code < CODES
}

// Returns a code's row, 0 where there is no such code.
pub fn row(edition: u64, code: u64) -> u64
    ensures { result ≡ row_in (code_of edition code) }
{
    if CODES <= code {
        return 0;
    }
    (ROWS[(code / 4) as usize] >> (16 * (code % 4))) % 65536
}

// Returns how many numbers a code names, 0 where there is no such code.
pub fn operands(edition: u64, code: u64) -> u64
    ensures { result ≡ operands_in (code_of edition code) }
{
    let r = row(edition, code);
    if r / 8 % 8 == NOTHING {
        return 0;
    }
    if r / 64 == NOTHING {
        return 1;
    }
    2
}
