// Rows that the reader of EREs makes, and what it keeps while it reads.
ghost use Rattle.std.specs.Prelude.{◌≡◌};
ghost use Rattle.ere_pieces.specs.State.{join_entry, link_entry, stop_entry};

// What may come next before a part of an ERE: where the text starts, and elsewhere.
#[derive(Clone, Copy)]
pub struct Entry {
    pub first: [u64; 3],
    pub later: [u64; 3],
}

// A part that was read: it ends before `at`, its places are those up to `hi`, and with it there are `count` places and
// anchors.
#[derive(Drop)]
pub struct Piece {
    pub at: usize,
    pub hi: usize,
    pub count: usize,
    pub entry: Entry,
}

// Reading a group: the alternatives so far, and the sequence so far, whose places start at `lo`. `some` tells whether
// the sequence has a piece; `seq` is no Option, since without one it is what linking a first piece needs.
#[derive(Clone, Copy)]
pub struct State {
    pub some: bool,
    pub at: usize,
    pub lo: usize,
    pub hi: usize,
    pub count: usize,
    pub alts: Entry,
    pub seq: Entry,
}

// Returns what may come next before either of two parts: alternatives. It and `linked` are two calls each: one function
// that takes the operation on sets as a closure would be no shorter, and its contract would speak of any operation.
pub fn joined(a: Entry, b: Entry) -> Entry
    ensures { result ≡ join_entry a b }
{
    let first = ere_table::union(a.first, b.first);
    let later = ere_table::union(a.later, b.later);
    Entry { first, later }
}

// Returns what may come next before two parts, one after the other: a sequence.
pub fn linked(a: Entry, b: Entry) -> Entry
    ensures { result ≡ link_entry a b }
{
    let first = ere_table::link(a.first, b.first);
    let later = ere_table::link(a.later, b.later);
    Entry { first, later }
}

// Returns the entry of a part that may be left out.
pub fn or_stop(a: Entry) -> Entry
    ensures { result ≡ stop_entry a }
{
    let first = ere_table::or_stop(a.first);
    let later = ere_table::or_stop(a.later);
    Entry { first, later }
}
