// Comparison of byte strings, and the first place of a byte.
ghost use Rattle.std.specs.Prelude.{◌≡◌, length};
ghost use Rattle.buffer.specs.Order.{ordering, equal_bytes};
ghost use Rattle.buffer.specs.First.{first_byte};

use std::cmp::Ordering;

// Returns the order of `a` to `b`: by the first byte in which they differ; a proper prefix comes first.
pub fn compare(a: &[u8], b: &[u8]) -> Ordering
    ensures { result ≡ ordering a.now b.now }
{
    a.cmp(&b)
}

// Tells whether `a` and `b` have the same bytes.
pub fn equal(a: &[u8], b: &[u8]) -> bool
    ensures { result ≡ equal_bytes a.now b.now }
{
    a == b
}

// Returns the index of the first `b` of `s`, or the length of `s` where there is none.
pub fn first_byte(s: &[u8], b: u8) -> usize
    ensures { result ≡ first_byte b s.now }
{
    for (k, x) in s.iter().enumerate() {
        if *x == b {
            return k;
        }
    }
    s.len()
}
