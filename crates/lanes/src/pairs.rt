// The first byte that is one of two, as blanks are, and the first that is neither.
ghost use Rattle.std.specs.Prelude.{◌≡◌, [], ◌∷◌, ◌+◌, ◌≤◌, length, drop};
ghost use Rattle.lists.specs.Elements.{one_of, leading};
ghost use Rattle.buffer.specs.Parts.{part};
ghost use Rattle.buffer.specs.First.{first_byte};
ghost use Rattle.lanes.specs.Pair.{neither};

use crate::words::marks_at;

// Finds the first `a` or `b` in the eight bytes from index `at` on; 8 where there is none.
fn first_pair_in_8(s: &[u8], at: usize, a: u8, b: u8) -> usize
    requires { at + 8 ≤ length s.now }
    ensures { result ≡ leading (neither a b) (part at 8 s.now) }
{
    let m = marks_at(s, at, a) | marks_at(s, at, b);
    (u64::trailing_zeros(m) / 8) as usize
}

// Tells whether `x` is `a` or `b`.
fn is_either(x: u8, a: u8, b: u8) -> bool
    ensures { result ≡ one_of (a ∷ b ∷ []) x }
{
    x == a || x == b
}

// Finds the first `a` or `b` from index `at` on, byte by byte.
fn first_pair_by_1(s: &[u8], at: usize, a: u8, b: u8) -> usize
    requires { at ≤ length s.now }
    ensures { result ≡ at + leading (neither a b) (drop at s.now) }
{
    for k in at..s.len() {
        if is_either(s[k], a, b) {
            return k;
        }
    }
    s.len()
}

// Returns the index of the first `a` or `b` from index `at` on, or the length of `s`: eight bytes at a time, and one by
// one at the end. No `for` over a `step_by`: the search goes on from the index that the loop ends at.
pub fn first_of_two(s: &[u8], at: usize, a: u8, b: u8) -> usize
    requires { at ≤ length s.now }
    ensures { result ≡ at + leading (neither a b) (drop at s.now) }
{
    let mut k = at;
    while 8 <= s.len() - k {
        let i = first_pair_in_8(s, k, a, b);
        if i < 8 {
            return k + i;
        }
        k += 8;
    }
    first_pair_by_1(s, k, a, b)
}

// Returns the index of the first byte from index `at` on that is neither `a` nor `b`, or the length of `s`.
pub fn past_two(s: &[u8], at: usize, a: u8, b: u8) -> usize
    requires { at ≤ length s.now }
    ensures { result ≡ at + leading (one_of (a ∷ b ∷ [])) (drop at s.now) }
{
    for k in at..s.len() {
        if !is_either(s[k], a, b) {
            return k;
        }
    }
    s.len()
}

// Returns the index of the first `b` from index `at` on, or the length of `s`: as `first_of_two`, which suits short
// ways better than `first_byte`.
pub fn first_byte_from(s: &[u8], at: usize, b: u8) -> usize
    requires { at ≤ length s.now }
    ensures { result ≡ at + first_byte b (drop at s.now) }
{
    first_of_two(s, at, b, b)
}
