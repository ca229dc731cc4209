// Eight bytes at a time, as the lanes of a word. No sum of two lanes carries into the next.
ghost use Rattle.std.specs.Prelude.{◌≡◌, ◌+◌, ◌≤◌, length};
ghost use Rattle.buffer.specs.Parts.{part};
ghost use Rattle.little_endian.specs.Words.{le_bytes};
ghost use Rattle.buffer.specs.First.{first_byte};
ghost use Rattle.lanes.specs.Marks.{marks};

use little_endian::get_word;

// Returns the high bit of each lane that is 0, and no other bit.
pub fn zero_lane(x: u64) -> u64
    ensures { result ≡ marks 0 (le_bytes 8 x) }
{
    let y = (x & 0x7f7f7f7f7f7f7f7f) + 0x7f7f7f7f7f7f7f7f;
    (x | y | 0x7f7f7f7f7f7f7f7f) ^ 0xffffffffffffffff
}

// Returns the high bit of each lane that is b, and no other bit.
pub fn lanes_of(w: u64, b: u8) -> u64
    ensures { result ≡ marks b (le_bytes 8 w) }
{
    zero_lane(w ^ (b as u64 * 0x0101010101010101))
}

// Marks each b of the eight bytes from index `at` on.
pub fn marks_at(s: &[u8], at: usize, b: u8) -> u64
    requires { at + 8 ≤ length s.now }
    ensures { result ≡ marks b (part at 8 s.now) }
{
    lanes_of(get_word(s, at), b)
}

// Returns the place of the first b in the eight bytes from index `at` on, or 8 where there is none.
pub fn first_in_8(s: &[u8], at: usize, b: u8) -> usize
    requires { at + 8 ≤ length s.now }
    ensures { result ≡ first_byte b (part at 8 s.now) }
{
    (u64::trailing_zeros(marks_at(s, at, b)) / 8) as usize
}
