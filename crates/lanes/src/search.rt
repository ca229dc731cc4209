// The first place of a byte. Two words of eight bytes are tried first; then blocks of 32 bytes that do not have it are
// passed.
ghost use Rattle.std.specs.Prelude.{◌≡◌, ◌+◌, ◌≤◌, ◌<◌, length};
ghost use Rattle.buffer.specs.First.{first_byte};
ghost use Rattle.lanes.specs.Block.{Nearer};

use crate::blocks::any_in_32;
use crate::words::{first_in_8, marks_at};

// Passes the eight bytes from index `at` on if no `b` is among them. The choice is a conditional move, and no branch
// that is guessed wrong.
fn pass_8(s: &[u8], at: usize, b: u8) -> usize
    requires { (at + 8 ≤ length s.now) × (at ≤ first_byte b s.now) }
    ensures { Nearer b s.now at 8 result }
{
    if marks_at(s, at, b) == 0 { at + 8 } else { at }
}

// Passes the 16 bytes from index `at` on if no `b` is among them.
fn pass_16(s: &[u8], at: usize, b: u8) -> usize
    requires { (at + 16 ≤ length s.now) × (at ≤ first_byte b s.now) }
    ensures { Nearer b s.now at 16 result }
{
    let m = marks_at(s, at, b) | marks_at(s, at + 8, b);
    if m == 0 { at + 16 } else { at }
}

// Finds the first `b`, which is in the 32 bytes from index `at` on.
fn first_in_32(s: &[u8], at: usize, b: u8) -> usize
    requires { (at + 32 ≤ length s.now) × (at ≤ first_byte b s.now) × (first_byte b s.now < at + 32) }
    ensures { result ≡ first_byte b s.now }
{
    let half = pass_16(s, at, b);
    let word = pass_8(s, half, b);
    word + first_in_8(s, word, b)
}

// Finds the first `b`, which is at index `from` or after it, eight bytes at a time. The last eight may overlap those
// before them. A loop with a `step_by` tests twice at each step: it took a tenth longer.
fn first_by_8(s: &[u8], b: u8, from: usize) -> usize
    requires { (8 ≤ length s.now) × (from ≤ first_byte b s.now) }
    ensures { result ≡ first_byte b s.now }
{
    let last = s.len() - 8;
    let mut k = from;
    while k < last {
        let i = first_in_8(s, k, b);
        if i < 8 {
            return k + i;
        }
        k += 8;
    }
    last + first_in_8(s, last, b)
}

// Finds the first `b`, which is at index `from` or after it, by blocks of 32 bytes, and after them by eight. No `for`
// over a `step_by`: the search goes on from the index that the loop ends at.
fn first_by_32(s: &[u8], b: u8, from: usize) -> usize
    requires { (8 ≤ length s.now) × (from ≤ first_byte b s.now) }
    ensures { result ≡ first_byte b s.now }
{
    let mut k = from;
    while 32 <= s.len() - k {
        if any_in_32(s, k, b) {
            return first_in_32(s, k, b);
        }
        k += 32;
    }
    first_by_8(s, b, k)
}

// Finds the first `b` of 16 bytes or more.
fn first_in_long(s: &[u8], b: u8) -> usize
    requires { 16 ≤ length s.now }
    ensures { result ≡ first_byte b s.now }
{
    let i = first_in_8(s, 0, b);
    if i < 8 {
        return i;
    }
    let j = first_in_8(s, 8, b);
    if j < 8 {
        return 8 + j;
    }
    first_by_32(s, b, 16)
}

// Returns the index of the first `b` of `s`, or the length of `s` where there is none.
pub fn first_byte(s: &[u8], b: u8) -> usize
    ensures { result ≡ first_byte b s.now }
{
    if s.len() < 8 {
        return buffer::first_byte(s, b);
    }
    if s.len() < 16 {
        return first_by_8(s, b, 0);
    }
    first_in_long(s, b)
}
