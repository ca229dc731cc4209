// An ERE that is a word: the places where its tests are passed.
ghost use Rattle.std.specs.Prelude.{◌≡◌, ℕ, ◌+◌, ◌^◌, ◌<◌, ◌≤◌, length, nat_lt, slice_index};
ghost use Rattle.ere_automaton.specs.Layout.{rows_at, range_at, test_place, Placed};
ghost use Rattle.ere_automaton.specs.Words.{closing, passed, tried, is_here, here_in, Looked};
ghost use Rattle.ere_automaton.specs.Words.{passes as isPassed};

use crate::blocks;
use crate::layout::{BLOCK, RANGE, TESTS};

// Tells whether test k is passed at p.
fn passes(d: &[u16], x: &[u8], p: usize, k: usize) -> bool
    requires { (rows_at ≤ length d.now) × (k < 7) × (p + test_place d.now k < length x.now) }
    ensures { result ≡ isPassed d.now x.now p k }
{
    let w = d[TESTS + k];
    x[p + (w / 256) as usize] == (w % 256) as u8
}

// Tells whether all tests are passed at p. A word that has few is not asked for each: the choice is the same at each
// place, and a loop over places is compiled for each of its ways.
fn passes_all(d: &[u16], x: &[u8], p: usize, last: usize, tests: usize) -> bool
    requires { (rows_at ≤ length d.now) × (Placed d.now last) × (p + last < length x.now) }
    ensures { result ≡ passed d.now x.now p (tried tests) }
{
    let a = passes(d, x, p, 0) & passes(d, x, p, 1);
    if tests <= 2 {
        return a;
    }
    let b = ((a & passes(d, x, p, 2)) & passes(d, x, p, 3)) & passes(d, x, p, 4);
    if tests <= 5 {
        return b;
    }
    (b & passes(d, x, p, 5)) & passes(d, x, p, 6)
}

// Tells whether the byte at q may be the last of the word; `ranged` if there is more than one.
fn closes(d: &[u16], x: &[u8], q: usize, ranged: bool) -> bool
    requires { (rows_at ≤ length d.now) × (q < length x.now) × («ranged» ≡ nat_lt 255 (slice_index d.now range_at)) }
    ensures { result ≡ closing d.now (slice_index x.now q) }
{
    if !ranged {
        return x[q] == (d[RANGE] % 256) as u8;
    }
    let w = d[RANGE];
    blocks::inside(x[q], (w % 256) as u8, (w / 256) as u8)
}

// Tells whether the word is at p.
fn here(d: &[u16], x: &[u8], p: usize, last: usize, tests: usize, ranged: bool) -> bool
    requires { (rows_at ≤ length d.now) × (Placed d.now last) × (p + last < length x.now)
        × («ranged» ≡ nat_lt 255 (slice_index d.now range_at)) }
    ensures { result ≡ is_here d.now x.now last tests p }
{
    passes_all(d, x, p, last, tests) & closes(d, x, p + last, ranged)
}

// Tells whether the word is at one of the 16 places from i on. A loop of a fixed length without an exit is compiled
// to comparisons of 16 bytes.
fn in_block(d: &[u16], x: &[u8], i: usize, last: usize, tests: usize, ranged: bool) -> bool
    requires { (rows_at ≤ length d.now) × (Placed d.now last) × (i + 15 + last < length x.now)
        × («ranged» ≡ nat_lt 255 (slice_index d.now range_at)) }
    ensures { result ≡ here_in d.now x.now last tests i 16 }
{
    let mut hit = false;
    for j in 0..BLOCK {
        hit |= here(d, x, i + j, last, tests, ranged);
    }
    hit
}

// Tells whether the word is in the text, which has at least 16 places for it. The second block begins where the others
// end with the last place. No `for`: the first step is another than the rest.
pub fn is_in(d: &[u16], x: &[u8], last: usize, tests: usize) -> bool
    requires { (rows_at ≤ length d.now) × (Placed d.now last) × (15 + last < length x.now)
        × (length x.now < 2 ^ 63) }
    ensures { Looked d.now x.now last tests (length x.now) result }
{
    let ranged = 255 < d[RANGE];
    let end = x.len() - last - BLOCK;
    let mut hit = false;
    let mut step = (end + 15) % BLOCK + 1;
    let mut i: usize = 0;
    while i <= end {
        hit = hit | in_block(d, x, i, last, tests, ranged);
        i += step;
        step = BLOCK;
    }
    hit
}

// Tells whether the word is where the text starts.
pub fn is_first(d: &[u16], x: &[u8], last: usize, tests: usize) -> bool
    requires { (rows_at ≤ length d.now) × (Placed d.now last) × (last < length x.now) }
    ensures { result ≡ is_here d.now x.now last tests 0 }
{
    here(d, x, 0, last, tests, 255 < d[RANGE])
}
