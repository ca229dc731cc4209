// Blocks of 16 bytes.
ghost use Rattle.std.specs.Prelude.{◌≡◌, ◌+◌, ◌-◌, ◌%◌, ◌^◌, ◌<◌, ◌≤◌, false, ◌||◌, length, ◌==◌};
ghost use Rattle.ere_automaton.specs.Layout.{State, pairs_word, pair_in, in_range};
ghost use Rattle.ere_automaton.specs.Automaton.{Ranged};
ghost use Rattle.ere_automaton.specs.Scan.{Ready, runs, ranges, begin, starts, Skipped};

use crate::layout::{BLOCK, CLASSES};

// Tells whether a byte is in a range.
pub fn inside(b: u8, low: u8, width: u8) -> bool
    ensures { result ≡ in_range low width b }
{
    std::num::wrapping_sub_u8(b, low) <= width
}

// Tells whether a start was seen, or two bytes may be the first of a match.
fn seen(hit: bool, b: u8, next: u8, low: u8, width: u8, next_low: u8, next_width: u8) -> bool
    ensures { result ≡ (hit || begin (ranges low width next_low next_width) b next) }
{
    hit | (inside(b, low, width) & inside(next, next_low, next_width))
}

// Tells whether a match may start at one of the 16 places from i on. A loop of a fixed length without an exit is
// compiled to comparisons of 16 bytes.
fn may_start(x: &[u8], i: usize, low: u8, width: u8, next_low: u8, next_width: u8) -> bool
    requires { i + 17 ≤ length x.now }
    ensures { result ≡ starts (ranges low width next_low next_width) x.now i 16 }
{
    let mut hit = false;
    for j in 0..BLOCK {
        hit = seen(
            hit,
            x[i + j],
            x[i + j + 1],
            low,
            width,
            next_low,
            next_width,
        );
    }
    hit
}

// Returns the first place from `from` on, by blocks, where one of 16 starts may be that of a match; or where fewer than
// 17 bytes are left. No `for`: the place where the loop ends is the answer.
pub fn skip(x: &[u8], from: usize, low: u8, width: u8, next_low: u8, next_width: u8) -> usize
    requires { (length x.now < 2 ^ 63) × (from ≤ length x.now) }
    ensures { Skipped (ranges low width next_low next_width) x.now from result }
{
    let mut i = from;
    while i + BLOCK < x.len() {
        if may_start(x, i, low, width, next_low, next_width) {
            return i;
        }
        i += BLOCK;
    }
    i
}

// Returns the state after two bytes.
pub fn pair(d: &[u16], k: usize, s: usize, b: u8, c: u8) -> usize
    requires { (Ready d.now k s) × ((pairs_word d.now == 0) ≡ false) }
    ensures { result ≡ pair_in d.now s b c }
{
    let y = d[CLASSES + b as usize] as usize * k + d[CLASSES + c as usize] as usize + k + 1;
    d[y + s] as usize
}

// Returns the state after the bytes from `from` to `end`, an even number, two at a time.
pub fn pairs_to(d: &[u16], k: usize, x: &[u8], from: usize, end: usize, state: usize) -> usize
    requires { (Ready d.now k state) × ((pairs_word d.now == 0) ≡ false) × (from ≤ end)
        × ((end - from) % 2 ≡ 0) × (end ≤ length x.now) }
    ensures { result ≡ runs d.now x.now from state (end - from) }
{
    let mut s = state;
    for j in 0..(end - from) / 2 {
        s = pair(d, k, s, x[from + 2 * j], x[from + 2 * j + 1]);
    }
    s
}

// Returns the state after the bytes from `from` to `end`.
pub fn by_bytes(d: &[u16], x: &[u8], from: usize, end: usize, state: usize) -> usize
    requires { (Ranged d.now) × (State d.now state) × (from ≤ end) × (end ≤ length x.now) }
    ensures { result ≡ runs d.now x.now from state (end - from) }
{
    let mut s = state;
    for i in from..end {
        s = d[s + d[CLASSES + x[i] as usize] as usize] as usize;
    }
    s
}
