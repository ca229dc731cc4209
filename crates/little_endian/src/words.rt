// Numbers in bytes, the low byte first.
ghost use Rattle.std.specs.Prelude.{◌≡◌, ◌+◌, ◌≤◌, length};
ghost use Rattle.buffer.specs.Parts.{part, put};
ghost use Rattle.little_endian.specs.Words.{le_bytes, le_value};

// Returns the number in the eight bytes from index `at` on.
pub fn get_word(s: &[u8], at: usize) -> u64
    requires { at + 8 ≤ length s.now }
    ensures { result ≡ le_value (part at 8 s.now) }
{
    u64::from_le_bytes(buffer::bytes_at(s, at))
}

// Writes a number to the eight bytes from index `at` on.
pub fn put_word(s: &mut [u8], at: usize, w: u64)
    requires { at + 8 ≤ length s.old }
    ensures { s.new ≡ put s.old at (le_bytes 8 w) }
{
    buffer::copy(s, at, &w.to_le_bytes());
}

// Returns the number in the two bytes from index `at` on.
pub fn get_short(s: &[u8], at: usize) -> u16
    requires { at + 2 ≤ length s.now }
    ensures { result ≡ le_value (part at 2 s.now) }
{
    u16::from_le_bytes(buffer::bytes_at(s, at))
}

// Writes a number to the two bytes from index `at` on.
pub fn put_short(s: &mut [u8], at: usize, n: u16)
    requires { at + 2 ≤ length s.old }
    ensures { s.new ≡ put s.old at (le_bytes 2 n) }
{
    buffer::copy(s, at, &n.to_le_bytes());
}
