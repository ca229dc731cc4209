// Whether there is a match.
ghost use Rattle.std.specs.Prelude.{◌≡◌, ℕ, ◌+◌, ◌-◌, ◌^◌, ◌<◌, ◌≤◌, not, List, length, ◌==◌};
ghost use Rattle.ere_exists.specs.Any.{Exists};
ghost use Rattle.ere_automaton.specs.Layout.{later_state, pairs_word, rows_at};
ghost use Rattle.ere_automaton.specs.Automaton.{Ranged, Drives};
ghost use Rattle.ere_automaton.specs.Scan.{Ready, runs, ranges_of, Skipped, NearEnd};

use crate::layout::BLOCK;
use crate::{blocks, layout, words};

// Returns the state after 16 bytes.
fn block(d: &[u16], k: usize, pairs: bool, x: &[u8], i: usize, s: usize) -> usize
    requires { (Ready d.now k s) × («pairs» ≡ not (pairs_word d.now == 0)) × (i + 16 ≤ length x.now) }
    ensures { result ≡ runs d.now x.now i s 16 }
{
    if pairs {
        return blocks::pairs_to(d, k, x, i, i + BLOCK, s);
    }
    blocks::by_bytes(d, x, i, i + BLOCK, s)
}

// Returns where to go on: past the blocks in which no match starts.
pub fn next_block(d: &[u16], x: &[u8], i: usize) -> usize
    requires { (rows_at ≤ length d.now) × (length x.now < 2 ^ 63) × (i ≤ length x.now) }
    ensures { Skipped (ranges_of d.now) x.now i result }
{
    let low = (d[layout::LOW] % 256) as u8;
    let width = (d[layout::WIDTH] % 256) as u8;
    let next_low = (d[layout::NEXT_LOW] % 256) as u8;
    let next_width = (d[layout::NEXT_WIDTH] % 256) as u8;
    blocks::skip(x, i, low, width, next_low, next_width)
}

// Returns the last place, if no match starts at the 16 before it, or i.
fn near_end(d: &[u16], x: &[u8], i: usize) -> usize
    requires { (rows_at ≤ length d.now) × (NearEnd (length x.now) i) }
    ensures { Skipped (ranges_of d.now) x.now i result }
{
    let last = x.len() - 1;
    if (i < last) & (last <= next_block(d, x, last - BLOCK)) {
        return last;
    }
    i
}

// Tells whether a match is in the text, by a walk over all of it. No `for`: i goes on to where `next_block` says.
fn search(d: &[u16], text: &[u8]) -> bool
    requires { Ranged d.now × (length text.now < 2 ^ 63) }
    ensures { (t : List ℕ) → Drives t d.now → Exists t text.now result }
{
    let k = d[layout::CLASS_COUNT] as usize;
    let later = d[layout::LATER] as usize;
    let accepted = d[layout::ACCEPTED] as usize;
    let pairs = d[layout::PAIRS] != 0;
    let skips = d[layout::SKIPS] != 0;
    let mut s = d[layout::FIRST] as usize;
    if s == accepted {
        return d[s + k] != 0;
    }
    let mut i: usize = 0;
    while i + BLOCK < text.len() {
        if skips && s == later {
            if d[layout::SKIPS] == layout::FIXED {
                return false;
            }
            i = next_block(d, text, i);
            if text.len() <= i + BLOCK {
                break;
            }
        }
        s = block(d, k, pairs, text, i, s);
        if s == accepted {
            return true;
        }
        i += BLOCK;
    }
    if (skips & (s == later)) & (BLOCK < text.len()) {
        i = near_end(d, text, i);
    }
    s = blocks::by_bytes(d, text, i, text.len(), s);
    d[s + k] != 0
}

// Returns the state after the bytes from i on, from where nothing is pending.
fn to_end(d: &[u16], x: &[u8], i: usize) -> usize
    requires { (Ranged d.now) × (length x.now < 2 ^ 63) × (i ≤ length x.now) }
    ensures { result
        ≡ runs d.now x.now i (later_state d.now) (length x.now - i) }
{
    let mut s = d[layout::LATER] as usize;
    let mut from = i;
    if d[layout::PAIRS] != 0 {
        from = x.len() - (x.len() - i) % 2;
        s = blocks::pairs_to(d, d[layout::CLASS_COUNT] as usize, x, i, from, s);
    }
    blocks::by_bytes(d, x, from, x.len(), s)
}

// Tells whether a match is in the text: a word by where it is, and by the last bytes, if each match ends there and
// has no more.
pub fn exists(d: &[u16], text: &[u8]) -> bool
    requires { Ranged d.now × (length text.now < 2 ^ 63) }
    ensures { (t : List ℕ) → Drives t d.now → Exists t text.now result }
{
    let shape = d[layout::SHAPE];
    let kind = shape / 256;
    if kind == layout::WORD {
        let last = (shape % 16) as usize;
        if last + BLOCK <= text.len() {
            return words::is_in(d, text, last, (shape / 16 % 16) as usize);
        }
    }
    if kind == layout::FIRST_WORD {
        let last = (shape % 16) as usize;
        if text.len() <= last {
            return false;
        }
        return words::is_first(d, text, last, (shape / 16 % 16) as usize);
    }
    let reach = d[layout::REACH] as usize;
    if (0 < reach) & (reach <= text.len()) {
        let s = to_end(d, text, text.len() + 1 - reach);
        return d[s + d[layout::CLASS_COUNT] as usize] != 0;
    }
    search(d, text)
}
