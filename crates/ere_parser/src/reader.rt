// The reader of EREs: recursive descent, which calls itself for groups alone; the items of a group are a loop.
//
// The loop's invariant (`Under`, `Standing`, `Safe` of specs/Standing.antt): the places of the group's alternatives
// so far end at `s.lo`, those of the sequence since the last `|` at `s.hi`. The table has the rows and classes of both,
// as parts by themselves, whose first sets are `s.alts` and `s.seq`, and the rows and classes below the group's first
// place are as they were. To go on reading at `s.at`, with these two trees, gives what the definition gives for the
// whole group. `s.count` counts places and anchors, 128 at most. A turn (`Turns`) keeps all this and goes on by a
// byte. Where it refuses, the definition reads nothing, or more than 128 places (`Refuses`).
ghost use Rattle.std.specs.Prelude.{◌≡◌, ◌≢◌, true, false, ℕ, ◌+◌, ◌-◌, ◌≤◌, ◌<◌, length, get_or, drop, None, Some, IfSome, MatchOption};
ghost use Rattle.edition.specs.Limits.{ere_places, ere_bytes};
ghost use Rattle.ere_table.specs.Table.{table_words};
ghost use Rattle.ere_parser.specs.Standing.{Closed, Safe, Begins, Moves, Turns, GroupReads};
ghost use Rattle.ere_pieces.specs.State.{grouped_of, grouped_table};

use crate::atoms;
use edition::Edition;
use ere_pieces::{Entry, Piece, State};
use ere_table::{ACCEPT, ACCEPT_AT_END, NOTHING};

// Tells whether a group ends before an index: at the end, or before a `)`.
fn ends(ere: &[u8], at: usize) -> bool
    ensures closed { result ≡ true → Closed (drop at ere.now) }
    ensures goes_on { result ≡ false → (at < length ere.now) × (get_or ere.now at 0 ≢ 41) }
{
    if at >= ere.len() {
        return true;
    }
    ere[at] == b')'
}

// Appends an atom that is no group, with what repeats it; refuses the 129th place.
fn atom(ere: &[u8], s: State, t: &mut [u64]) -> Option<State>
    requires { (length t.old ≡ table_words) × (length ere.now ≤ ere_bytes) × (s.at < length ere.now)
        × Safe ere.now s × Begins (get_or ere.now s.at 0) }
    ensures { (n : ℕ) → Turns ere.now n t.old t.new s result }
{
    let p = s.hi;
    let count = s.count;
    if count >= Edition::ERE_PLACES {
        return None;
    }
    let a = atoms::read_atom(ere, s.at)?;
    let g = ere_pieces::leaf(a.words, a.next, p, count, t);
    let b = ere_pieces::byte_at(ere, a.next);
    let r = ere_pieces::repeated(b, g, p, t);
    Some(ere_pieces::pushed(s, r, t))
}

// Takes a turn that reads no group: a `|`, an anchor, or another atom.
fn turn(ere: &[u8], s: State, t: &mut [u64]) -> Option<State>
    requires { (length t.old ≡ table_words) × (length ere.now ≤ ere_bytes) × (s.at < length ere.now)
        × (get_or ere.now s.at 0 ≢ 41) × (get_or ere.now s.at 0 ≢ 40) × Safe ere.now s }
    ensures { (n : ℕ) → Turns ere.now n t.old t.new s result }
{
    let b = ere[s.at];
    if b == b'|' {
        return ere_pieces::choice(s);
    }
    if b == b'^' {
        let bol = Entry {
            first: ACCEPT,
            later: NOTHING,
        };
        return ere_pieces::anchor(s, bol, t);
    }
    if b == b'$' {
        let eol = Entry {
            first: ACCEPT_AT_END,
            later: ACCEPT_AT_END,
        };
        return ere_pieces::anchor(s, eol, t);
    }
    atom(ere, s, t)
}

// Takes such a turn where the state is. It is not inlined, nor is `put_group`: what they keep on the stack is kept once,
// and not for each level of groups.
#[inline(never)]
fn take_turn(ere: &[u8], s: &mut State, t: &mut [u64]) -> Option<()>
    requires { (length t.old ≡ table_words) × (length ere.now ≤ ere_bytes) × (s.old.at < length ere.now)
        × (get_or ere.now s.old.at 0 ≢ 41) × (get_or ere.now s.old.at 0 ≢ 40) × Safe ere.now s.old }
    ensures { (n : ℕ) → MatchOption result (Turns ere.now n t.old t.new s.old None)
        (λ x. Moves ere.now n t.old t.new s.old s.new) }
{
    *s = turn(ere, *s, t)?;
    Some(())
}

// Appends a group with what repeats it, where the state is.
#[inline(never)]
fn put_group(ere: &[u8], s: &mut State, g: Option<Piece>, t: &mut [u64]) -> Option<()>
    requires { (length t.old ≡ table_words) × (s.old.lo ≤ s.old.hi) × (s.old.hi ≤ ere_places) × (length ere.now ≤ ere_bytes)
        × IfSome g (λ p. (s.old.hi ≤ p.hi) × (p.hi ≤ ere_places) × (p.at ≤ length ere.now)) }
    ensures { (MatchOption result (None ≡ grouped_of ere.now s.old g) (λ x. Some s.new ≡ grouped_of ere.now s.old g))
        × (t.new ≡ grouped_table ere.now s.old g t.old) }
{
    *s = ere_pieces::grouped(ere, *s, g, t)?;
    Some(())
}

// Takes one turn inside a group: a `|`, an anchor, a group inside, or another atom.
#[cycle(item_read_group)]
fn item(ere: &[u8], levels: usize, s: &mut State, t: &mut [u64]) -> Option<()>
    requires { (length t.old ≡ table_words) × (length ere.now ≤ ere_bytes) × (s.old.at < length ere.now)
        × (get_or ere.now s.old.at 0 ≢ 41) × Safe ere.now s.old }
    ensures { MatchOption result (Turns ere.now levels t.old t.new s.old None)
        (λ x. Moves ere.now levels t.old t.new s.old s.new) }
{
    if ere[s.at] != b'(' {
        return take_turn(ere, s, t);
    }
    if levels == 0 {
        return None;
    }
    let g = read_group(ere, levels - 1, s.at + 1, s.hi, s.count, t);
    put_group(ere, s, g, t)
}

// Reads a group, from an index up to its `)` or the end; its first place is lo.
#[cycle(item_read_group)]
pub fn read_group(
    ere: &[u8],
    levels: usize,
    at: usize,
    lo: usize,
    count: usize,
    t: &mut [u64],
) -> Option<Piece>
    requires { (length t.old ≡ table_words) × (length ere.now ≤ ere_bytes) × (at ≤ length ere.now) × (lo ≤ count)
        × (count ≤ ere_places) }
    ensures { GroupReads ere.now levels at lo count t.old t.new result }
{
    let mut s = ere_pieces::start(at, lo, count);
    while !ends(ere, s.at) {
        item(ere, levels, &mut s, t)?;
    }
    ere_pieces::finish(s)
}
