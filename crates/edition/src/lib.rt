// Document 01's sizes and outcome numbers: their one home in code.
#![tactic(auto)]

ghost use Rattle.std.specs.Prelude.{◌≡◌};
ghost use Rattle.edition.specs.Limits.{limits as limits_limits};
ghost use Rattle.edition.specs.Outcomes.{outcomes};

// An edition of the rules, by its number. Rules that a later edition changes take it by value.
#[derive(Clone, Copy)]
pub struct Edition {
    pub number: u64,
}

impl Edition {
    // The number of the first edition.
    pub const FIRST: u64 = 1;
    // Bytes of a filter's text.
    pub const FILTER_TEXT: usize = 8192;
    // Bytes of any text value.
    pub const TEXT: usize = 512;
    // Bytes of a record, without its newline.
    pub const RECORD: usize = 512;
    // Fields of a record.
    pub const FIELDS: usize = 128;
    // The greatest number; the least is its negation.
    pub const NUMBER: u64 = 9007199254740992;
    // User names of a filter.
    pub const USERS: usize = 25;
    // Different constants of a filter.
    pub const CONSTANTS: usize = 64;
    // Different EREs of a filter.
    pub const ERES: usize = 16;
    // Instructions of a section.
    pub const INSTRUCTIONS: usize = 1024;
    // Operands at one time.
    pub const DEPTH: usize = 32;
    // Open levels of a filter's text.
    pub const NESTING: usize = 16;
    // Bytes of working room.
    pub const WORKING_ROOM: usize = 49152;
    // Bytes of an ERE.
    pub const ERE_BYTES: usize = 512;
    // Places of an ERE: bytes, dots, brackets and anchors.
    pub const ERE_PLACES: usize = 128;
    // Open groups of an ERE.
    pub const ERE_GROUPS: usize = 16;

    // Returns the first edition's number and sizes, each under its name; the contract says that code and definitions
    // have the same.
    pub fn limits() -> Limits
        ensures { result ≡ limits_limits }
    {
        Limits {
            edition: Edition::FIRST,
            filter_text: Edition::FILTER_TEXT,
            text: Edition::TEXT,
            record: Edition::RECORD,
            fields: Edition::FIELDS,
            number: Edition::NUMBER,
            users: Edition::USERS,
            constants: Edition::CONSTANTS,
            eres: Edition::ERES,
            instructions: Edition::INSTRUCTIONS,
            depth: Edition::DEPTH,
            nesting: Edition::NESTING,
            working_room: Edition::WORKING_ROOM,
            ere_bytes: Edition::ERE_BYTES,
            ere_places: Edition::ERE_PLACES,
            ere_groups: Edition::ERE_GROUPS,
        }
    }
}

#[derive(Drop)]
pub struct Limits {
    pub edition: u64,
    pub filter_text: usize,
    pub text: usize,
    pub record: usize,
    pub fields: usize,
    pub number: u64,
    pub users: usize,
    pub constants: usize,
    pub eres: usize,
    pub instructions: usize,
    pub depth: usize,
    pub nesting: usize,
    pub working_room: usize,
    pub ere_bytes: usize,
    pub ere_places: usize,
    pub ere_groups: usize,
}

// What a part answers by number. Each entry has an enum of its own; a definition gives its cases these numbers.
#[derive(Drop)]
pub struct Outcome {
    pub number: u64,
}

impl Outcome {
    pub const DONE: u64 = 0;

    pub const FILTER_TEXT_TOO_LONG: u64 = 1;

    pub const NUL_BYTE: u64 = 2;

    pub const BAD_TOKEN: u64 = 3;

    pub const MISPLACED_TOKEN: u64 = 4;

    pub const BAD_ERE: u64 = 5;

    pub const SIZE_PASSED: u64 = 6;

    pub const ROOM_TOO_SMALL: u64 = 7;

    pub const IMAGE_MALFORMED: u64 = 8;

    pub const IMAGE_FAILS_CHECK: u64 = 9;

    pub const BUDGET_SPENT: u64 = 10;

    pub const NUMBER_OUT_OF_RANGE: u64 = 11;

    pub const NUMBER_NOT_WHOLE: u64 = 12;

    pub const DIVISOR_ZERO: u64 = 13;

    pub const TEXT_TOO_LONG: u64 = 14;

    pub const RECORD_TOO_LONG: u64 = 15;

    pub const BAD_FIELD_NUMBER: u64 = 16;

    pub const OUTPUT_ROOM_TOO_SMALL: u64 = 17;

    pub const BAD_SEPARATOR: u64 = 18;

    pub const WORKING_ROOM_TOO_SMALL: u64 = 19;

    // Returns every outcome number, in the order of document 01's table.
    pub fn numbers() -> [u64; 20]
        ensures { result ≡ outcomes }
    {
        [
            Outcome::DONE,
            Outcome::FILTER_TEXT_TOO_LONG,
            Outcome::NUL_BYTE,
            Outcome::BAD_TOKEN,
            Outcome::MISPLACED_TOKEN,
            Outcome::BAD_ERE,
            Outcome::SIZE_PASSED,
            Outcome::ROOM_TOO_SMALL,
            Outcome::IMAGE_MALFORMED,
            Outcome::IMAGE_FAILS_CHECK,
            Outcome::BUDGET_SPENT,
            Outcome::NUMBER_OUT_OF_RANGE,
            Outcome::NUMBER_NOT_WHOLE,
            Outcome::DIVISOR_ZERO,
            Outcome::TEXT_TOO_LONG,
            Outcome::RECORD_TOO_LONG,
            Outcome::BAD_FIELD_NUMBER,
            Outcome::OUTPUT_ROOM_TOO_SMALL,
            Outcome::BAD_SEPARATOR,
            Outcome::WORKING_ROOM_TOO_SMALL,
        ]
    }
}
