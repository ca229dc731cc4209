// The words of an automaton: a head, the class of each byte, and a row for each state. A state is the index of its row.
// A row: the state after a byte of each class; the accept bits, that a match may end before the text's end (1) and at
// it (2); and with pairs, the state after two bytes, of each class and each class.
pub const CLASS_COUNT: usize = 0;

pub const FIRST: usize = 1;

pub const LATER: usize = 2;

pub const ACCEPTED: usize = 3;

pub const PAIRS: usize = 4;

// In the first of both automata of a search: its length, and the accept bits of the empty match at the text's start and
// elsewhere.
pub const LENGTH: usize = 10;

pub const EMPTY: usize = 11;

pub const CLASSES: usize = 24;

pub const ROWS: usize = CLASSES + 256;
// At most so many states.
pub const MOST_STATES: usize = 96;
