// Classes of bytes as four words of 64 bits: the byte b is bit b % 64 of word b / 64. They are arrays and no struct of
// their own, since `ere_table` stores their words in its table as they are.
ghost use Rattle.std.specs.Prelude.{◌≡◌, ◌+◌, ◌-◌, ◌≤◌};
ghost use Rattle.ere_byte_set.specs.Words.{in_class, no_byte, every_byte, with_byte, with_bytes, other_word, other_bytes};

// Returns the class of no byte.
pub fn empty() -> [u64; 4]
    ensures { result ≡ no_byte }
{
    [0; 4]
}

// Returns the class of every byte.
pub fn full() -> [u64; 4]
    ensures { result ≡ every_byte }
{
    [u64::MAX; 4]
}

// Tells whether the byte b is in the class c.
pub fn has(c: [u64; 4], b: u8) -> bool
    ensures { result ≡ in_class c b }
{
    (c[(b / 64) as usize] >> (b % 64)) % 2 == 1
}

// Returns the class c with the byte b.
pub fn with_byte(c: [u64; 4], b: u8) -> [u64; 4]
    ensures { result ≡ with_byte c b }
{
    let mut d = c;
    d[(b / 64) as usize] |= 1 << (b % 64);
    d
}

// Returns the class of the byte b alone.
pub fn single(b: u8) -> [u64; 4]
    ensures { result ≡ with_byte no_byte b }
{
    with_byte(empty(), b)
}

// Returns the class c with the bytes from lo up to hi, both of them in it.
pub fn with_range(c: [u64; 4], lo: u8, hi: u8) -> [u64; 4]
    requires { lo ≤ hi }
    ensures { result ≡ with_bytes c lo (hi + 1 - lo) }
{
    let mut d = c;
    // The last byte comes after the loop: the end of `lo..=hi` would be 256 where hi is 255, which is no u8.
    for b in lo..hi {
        let next = with_byte(d, b);
        d = next;
    }
    with_byte(d, hi)
}

// Returns the word with each bit flipped.
fn other_word(w: u64) -> u64
    ensures { result ≡ other_word w }
{
    u64::MAX - w
}

// Returns the class of every byte that is not in the class c.
pub fn flipped(c: [u64; 4]) -> [u64; 4]
    ensures { result ≡ other_bytes c }
{
    [
        other_word(c[0]),
        other_word(c[1]),
        other_word(c[2]),
        other_word(c[3]),
    ]
}
