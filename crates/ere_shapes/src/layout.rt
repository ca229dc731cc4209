// The words of an automaton that say what is known of the matches' bytes: 256 times a kind, 16 times how many tests a
// word has, and how far its last byte is from its first; the tests, each a byte and 256 times how far it is from the
// first; and the range of the last byte, the lowest and 256 times how many more there are.
pub const SHAPE: usize = 15;
// The kinds, by 256: the ERE is a word, or a word at the text's start.
pub const WORD: usize = 256;

pub const FIRST_WORD: usize = 512;

pub const TESTS: usize = 16;

pub const MOST_TESTS: usize = 7;

pub const RANGE: usize = 23;

pub const CLASSES: usize = 24;
// The bytes of a word at most.
pub const MOST_BYTES: usize = 16;
