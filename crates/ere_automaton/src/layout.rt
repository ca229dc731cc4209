// The words of an automaton: a head, the class of each byte, and a row for each state. A state is the index of its row.
// A row: the state after a byte of each class; 1 if a match ends where the text ends, else 0; and with pairs, the state
// after two bytes, of each class and each class.

// How many classes there are.
pub const CLASS_COUNT: usize = 0;
// The state at the text's start.
pub const FIRST: usize = 1;
// The state elsewhere, where nothing is pending.
pub const LATER: usize = 2;
// A state in which a match has ended.
pub const ACCEPTED: usize = 3;
// Not 0 if rows have pairs.
pub const PAIRS: usize = 4;
// Not 0 if the ranges of a match's first two bytes are of use; FIXED if a match can start only where the text starts.
pub const SKIPS: usize = 5;

pub const FIXED: u16 = 2;
// The lowest byte of the range of a match's first byte.
pub const LOW: usize = 6;
// How many more that range has.
pub const WIDTH: usize = 7;
// The lowest byte of the range of its second.
pub const NEXT_LOW: usize = 8;
// How many more that one has.
pub const NEXT_WIDTH: usize = 9;
// Of two automata, one after the other: the words of the first, and the accept bits of the empty match, at the text's
// start and then elsewhere.
pub const LENGTH: usize = 10;

pub const EMPTY: usize = 11;
// Not 0 if each match ends at the text's end: one more than the bytes of the longest.
pub const REACH: usize = 14;
// What is known of the matches' bytes: 0 for nothing; else 256 times a kind, 16 times how many tests a word has, and how
// far the word's last byte is from its first.
pub const SHAPE: usize = 15;
// The kinds: the ERE is a word, or a word at the text's start.
pub const WORD: u16 = 1;

pub const FIRST_WORD: u16 = 2;
// The tests of a word: a byte, and 256 times how far it is from the word's first. The last ones repeat the first where
// there are fewer than seven.
pub const TESTS: usize = 16;
// The range of a word's last byte: the lowest byte, and 256 times how many more there are.
pub const RANGE: usize = 23;
// Where the classes of the bytes start.
pub const CLASSES: usize = 24;

// The bytes that a search takes at a time.
pub const BLOCK: usize = 16;
