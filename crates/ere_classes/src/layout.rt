// The words of an automaton that say something of its bytes: whether ranges are of use, the ranges of a match's first
// two bytes, each its lowest byte and how many more it has, how far matches reach that end at the text's end, what is
// known of their bytes, and the class of each byte.
pub const SKIPS: usize = 5;

pub const LOW: usize = 6;

pub const NEXT_LOW: usize = 8;

pub const REACH: usize = 14;

pub const SHAPE: usize = 15;

pub const CLASSES: usize = 24;
// At most so many classes.
pub const MOST_CLASSES: usize = 64;
// The greatest reach.
pub const MOST_REACH: usize = 17;
// Ranges are of use, and no match starts but where the text starts.
pub const FIXED: u16 = 2;
