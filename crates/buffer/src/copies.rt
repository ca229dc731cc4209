// Copies and fills of parts of slices.
ghost use Rattle.std.specs.Prelude.{◌≡◌, ◌+◌, ◌≤◌, length, replicate};
ghost use Rattle.buffer.specs.Parts.{part, put};

// Copies all of `src` into `dst` from index `at` on.
pub fn copy(dst: &mut [u8], at: usize, src: &[u8])
    requires { at + length src.now ≤ length dst.old }
    ensures { dst.new ≡ put dst.old at src.now }
{
    dst[at..at + src.len()].copy_from_slice(src);
}

// Returns the `N` bytes of `s` from index `at` on.
pub fn bytes_at<const N: usize>(s: &[u8], at: usize) -> [u8; N]
    requires { at + N ≤ length s.now }
    ensures { result ≡ part at N s.now }
{
    let mut bytes = [0; N];
    bytes.copy_from_slice(&s[at..at + N]);
    bytes
}

// Copies the `n` bytes from index `from` to index `to`, as if by way of another buffer: the two parts may overlap.
pub fn copy_within(s: &mut [u8], from: usize, to: usize, n: usize)
    requires { (from + n ≤ length s.old) × (to + n ≤ length s.old) }
    ensures { s.new ≡ put s.old to (part from n s.old) }
{
    s.copy_within(from..from + n, to);
}

// Fills `n` bytes from index `at` on with `b`.
pub fn fill(s: &mut [u8], at: usize, n: usize, b: u8)
    requires { at + n ≤ length s.old }
    ensures { s.new ≡ put s.old at (replicate n b) }
{
    s[at..at + n].fill(b);
}
