// The turns of reading a group that need no reading of a group inside it.
ghost use Rattle.std.specs.Prelude.{◌≡◌, ◌+◌, ◌≤◌, ◌<◌, length, get_or, IfSome};
ghost use Rattle.edition.specs.Limits.{ere_places, ere_bytes};
ghost use Rattle.ere_table.specs.Table.{table_words};
ghost use Rattle.ere_pieces.specs.State.{start_of, bar_of, pushed_of, pushed_table, repeated_of, repeated_table, anchor_of, anchor_table, grouped_of, grouped_table, piece_of, place_entry, leaf_table, choice_of, finish_of};

use crate::rows;
use crate::rows::{Entry, Piece, State};
use edition::Edition;
use ere_table::{ACCEPT, NOTHING};

// Before a first piece: a match may end there.
const NO_PIECE: Entry = Entry {
    first: ACCEPT,
    later: ACCEPT,
};

// Returns the byte at an index, 0 past the end.
pub fn byte_at(ere: &[u8], at: usize) -> u8
    ensures { result ≡ get_or ere.now at 0 }
{
    ere.get(at).copied().unwrap_or(0)
}

// Returns the state with which a group is begun.
pub fn start(at: usize, lo: usize, count: usize) -> State
    ensures { result ≡ start_of at lo count }
{
    let alts = Entry {
        first: NOTHING,
        later: NOTHING,
    };
    State {
        some: false,
        at,
        lo,
        hi: lo,
        count,
        alts,
        seq: NO_PIECE,
    }
}

// Begins the next alternative.
pub fn bar(s: State) -> State
    requires { s.at ≤ ere_bytes }
    ensures { result ≡ bar_of s }
{
    let alts = rows::joined(s.alts, s.seq);
    State {
        some: false,
        at: s.at + 1,
        lo: s.hi,
        alts,
        seq: NO_PIECE,
        ..s
    }
}

// Appends a piece to the sequence: what it may begin with replaces the accept bits of the sequence's places.
pub fn pushed(s: State, g: Piece, t: &mut [u64]) -> State
    requires { (length t.old ≡ table_words) × (s.lo ≤ s.hi) × (s.hi ≤ ere_places) }
    ensures { (result ≡ pushed_of s g) × (t.new ≡ pushed_table s g t.old) }
{
    ere_table::link_rows(t, s.lo + 2, s.hi - s.lo, g.entry.later);
    let seq = rows::linked(s.seq, g.entry);
    State {
        some: true,
        at: g.at,
        hi: g.hi,
        count: g.count,
        seq,
        ..s
    }
}

// Applies the byte b, if it is `*`, `+` or `?`, to the piece before it, whose places start at lo.
pub fn repeated(b: u8, g: Piece, lo: usize, t: &mut [u64]) -> Piece
    requires { (length t.old ≡ table_words) × (lo ≤ g.hi) × (g.hi ≤ ere_places) × (g.at ≤ ere_bytes) }
    ensures { (result ≡ repeated_of b g) × (t.new ≡ repeated_table b g lo t.old) }
{
    let e = g.entry;
    let hi = g.hi;
    if b == b'*' {
        let entry = rows::or_stop(e);
        ere_table::link_rows(t, lo + 2, hi - lo, entry.later);
        return Piece {
            at: g.at + 1,
            entry,
            ..g
        };
    }
    if b == b'+' {
        let again = rows::or_stop(e);
        ere_table::link_rows(t, lo + 2, hi - lo, again.later);
        return Piece {
            at: g.at + 1,
            entry: e,
            ..g
        };
    }
    if b == b'?' {
        let entry = rows::or_stop(e);
        return Piece {
            at: g.at + 1,
            entry,
            ..g
        };
    }
    g
}

// Appends an anchor to the sequence; refuses the 129th place.
pub fn anchor(s: State, entry: Entry, t: &mut [u64]) -> Option<State>
    requires { (length t.old ≡ table_words) × (s.lo ≤ s.hi) × (s.hi ≤ ere_places) × (s.at ≤ ere_bytes) }
    ensures { (result ≡ anchor_of s entry) × (t.new ≡ anchor_table s entry t.old) }
{
    if Edition::ERE_PLACES <= s.count {
        return None;
    }
    let g = Piece {
        at: s.at + 1,
        hi: s.hi,
        count: s.count + 1,
        entry,
    };
    Some(pushed(s, g, t))
}

// Appends a group that was read after its `(`, with what repeats it; refuses one that was refused, or without its `)`.
pub fn grouped(ere: &[u8], s: State, g: Option<Piece>, t: &mut [u64]) -> Option<State>
    requires { (length t.old ≡ table_words) × (s.lo ≤ s.hi) × (s.hi ≤ ere_places) × (length ere.now ≤ ere_bytes)
        × IfSome g (λ p. (s.hi ≤ p.hi) × (p.hi ≤ ere_places) × (p.at ≤ length ere.now)) }
    ensures { (result ≡ grouped_of ere.now s g)
        × (t.new ≡ grouped_table ere.now s g t.old) }
{
    let p = g?;
    if byte_at(ere, p.at) != b')' {
        return None;
    }
    let next = p.at + 1;
    let c = Piece { at: next, ..p };
    let b = byte_at(ere, next);
    let r = repeated(b, c, s.hi, t);
    Some(pushed(s, r, t))
}

// Writes the class and the row of a new place, and returns it as a piece.
pub fn leaf(words: [u64; 4], next: usize, p: usize, count: usize, t: &mut [u64]) -> Piece
    requires { (length t.old ≡ table_words) × (p < ere_places) × (count < ere_places) }
    ensures { (result ≡ piece_of next (p + 1) (count + 1) (place_entry p))
        × (t.new ≡ leaf_table p words t.old) }
{
    ere_table::put_class(t, p, words);
    ere_table::put_row(t, p + 2, ACCEPT);
    let first = ere_table::single(p);
    let entry = Entry {
        first,
        later: first,
    };
    Piece {
        at: next,
        hi: p + 1,
        count: count + 1,
        entry,
    }
}

// Begins the next alternative, if the one before it has a piece; else refuses.
pub fn choice(s: State) -> Option<State>
    requires { s.at ≤ ere_bytes }
    ensures { result ≡ choice_of s }
{
    if s.some { Some(bar(s)) } else { None }
}

// Returns the group that was read as a piece, or refuses one whose last alternative has none.
pub fn finish(s: State) -> Option<Piece>
    ensures { result ≡ finish_of s }
{
    if !s.some {
        return None;
    }
    let entry = rows::joined(s.alts, s.seq);
    Some(Piece {
        at: s.at,
        hi: s.hi,
        count: s.count,
        entry,
    })
}
