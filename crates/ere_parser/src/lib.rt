// The parser of EREs: from their bytes to the table of a position (Glushkov) automaton, without a tree in between. For
// each part that it has read it keeps the part's first sets, as bit sets (`Entry`), and in the table the follow sets of
// the part's places; to put a part after another is to unite the second's first set into the follow sets of the places
// where the first may end, which their accept bits mark.
#![tactic(auto)]

mod atoms;
mod reader;

pub use reader::read_group;
