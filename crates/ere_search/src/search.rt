// The leftmost longest match, by a walk over the table from each start.
//
// The invariant of a walk from start s, after n bytes (`live_at`, `longest_to` of specs/Walk.antt): `live` has the places
// that may come next, and its accept bits say whether those n bytes are a match; `best` is the longest match of fewer
// bytes, as a number. The invariant over starts: no match starts before s. For each ERE whose table it is, such a walk
// goes just where the ERE leads, so the answer is the best of its spans (`Finds` of specs/Find.antt). On words that are
// no ERE's table the answer lies inside the text, and that is all.
ghost use Rattle.std.specs.Prelude.{◌≡◌, ◌+◌, ◌≤◌, ◌<◌, ◌^◌, length};
ghost use Rattle.ere_table.specs.Table.{table_words, row};
ghost use Rattle.ere_table.specs.Wiring.{stop_in};
ghost use Rattle.ere_search.specs.Walk.{entry_row, note, longest_of, open_to, may_begin};
ghost use Rattle.ere_search.specs.Walk.{dead as deadSet};
ghost use Rattle.ere_search.specs.Find.{Finds};

use crate::words;
use ere_table::{BEGIN, EMPTY, PLACES};

// Tells whether a walk may stop at the set: at the text's end, or before it.
pub fn stops(s: [u64; 3], at_end: bool) -> bool
    ensures { result ≡ stop_in s at_end }
{
    if at_end {
        return ere_table::has(s, PLACES + 1);
    }
    ere_table::has(s, PLACES)
}

// Tells whether no place is in the set.
pub fn dead(s: [u64; 3]) -> bool
    ensures { result ≡ deadSet s }
{
    s[0] == 0 && s[1] == 0
}

// Returns the set in which a match that starts at s begins.
fn entry(t: &[u64], s: usize) -> [u64; 3]
    requires { length t.now ≡ table_words }
    ensures { result ≡ row t.now (entry_row s) }
{
    if s == 0 {
        return [t[0], t[1], t[2]];
    }
    [t[3], t[4], t[5]]
}

// Returns n + 1 where a walk may stop at the set and n bytes are enough, else `best`. The longest match is kept as a
// number, its length and 1, and 0 for none, and not as an Option: an enum, with its unused bytes, was copied through
// memory at each step, in pieces that the processor had to wait for.
fn longest(best: usize, live: [u64; 3], at_end: bool, least: usize, n: usize) -> usize
    requires { n < 2 ^ 63 }
    ensures { result ≡ note best live at_end least n }
{
    if least <= n {
        if stops(live, at_end) {
            return n + 1;
        }
    }
    best
}

// Returns the length of the longest match from s and 1, or 0 for none. Where no place is live, no walk goes on.
fn longest_from(t: &[u64], rest: &[u8], at: usize, least: usize, s: usize) -> usize
    requires { (length t.now ≡ table_words) × (at + length rest.now < 2 ^ 63) × (s ≤ length rest.now) }
    ensures { result ≡ longest_of t.now rest.now at least s }
{
    let mut live = entry(t, at + s);
    let mut best: usize = 0;
    for n in 0..rest.len() - s {
        best = longest(best, live, false, least, n);
        if dead(live) {
            return best;
        }
        let next = words::step(t, live, rest[s + n]);
        live = next;
    }
    longest(best, live, true, least, rest.len() - s)
}

// Tells whether a match of at least `least` bytes may be empty.
pub fn may_be_empty(t: &[u64], least: usize) -> bool
    requires { length t.now ≡ table_words }
    ensures { result ≡ open_to t.now least }
{
    if least == 0 {
        return t[EMPTY] != 0;
    }
    false
}

// Tells whether a match may begin with the byte b.
pub fn may_begin(t: &[u64], b: u8, empty: bool) -> bool
    requires { length t.now ≡ table_words }
    ensures { result ≡ may_begin t.now b empty }
{
    if empty {
        return true;
    }
    (t[BEGIN + (b / 64) as usize] >> (b % 64)) % 2 == 1
}

// Finds the leftmost match of at least `least` bytes, and the longest there: where it starts in the whole text, and how
// long it is. `rest` is the whole text from place `at` on.
pub fn find_from(t: &[u64], rest: &[u8], at: usize, least: usize) -> Option<(usize, usize)>
    requires { (length t.now ≡ table_words) × (at + length rest.now < 2 ^ 63) }
    ensures { Finds t.now rest.now at least result }
{
    let empty = may_be_empty(t, least);
    for (s, b) in rest.iter().enumerate() {
        if may_begin(t, *b, empty) {
            let n = longest_from(t, rest, at, least, s);
            if n > 0 {
                return Some((at + s, n - 1));
            }
        }
    }
    let n = longest_from(t, rest, at, least, rest.len());
    if n > 0 {
        return Some((at + rest.len(), n - 1));
    }
    None
}
