// A step of the walk, over sets of places as words.
ghost use Rattle.std.specs.Prelude.{◌≡◌, ◌+◌, ◌<◌, length};
ghost use Rattle.ere_table.specs.Table.{table_words, place_count, row, join, accepts_at};
ghost use Rattle.ere_search.specs.Walk.{step_word, put as put_of, step as step_of};

use ere_table::ROWS;

// Tells whether the place p accepts the byte b.
pub fn accepts(t: &[u64], p: usize, b: u8) -> bool
    requires { (length t.now ≡ table_words) × (p < place_count) }
    ensures { result ≡ accepts_at t.now p b }
{
    (t[ROWS + 4 * p + (b / 64) as usize] >> (b % 64)) % 2 == 1
}

// Returns the set s with row r of the table.
pub fn with_row(s: [u64; 3], t: &[u64], r: usize) -> [u64; 3]
    requires { (length t.now ≡ table_words) × (r < place_count + 2) }
    ensures { result ≡ join s (row t.now r) }
{
    [s[0] | t[3 * r], s[1] | t[3 * r + 1], s[2] | t[3 * r + 2]]
}

// Returns the set out with the row after the place p, if p accepts b.
pub fn put(t: &[u64], out: [u64; 3], b: u8, p: usize) -> [u64; 3]
    requires { (length t.now ≡ table_words) × (p < place_count) }
    ensures { result ≡ put_of t.now out b p }
{
    if accepts(t, p, b) {
        return with_row(out, t, p + 2);
    }
    out
}

// Adds to a set what may come after the places of word w of another, which is x, by its set bits, the lowest first. A
// bit is taken off where it is: shifting the rest down would make each turn wait longer for the one before it. No `for`:
// there are as many turns as set bits.
pub fn step_word(t: &[u64], b: u8, start: [u64; 3], w: usize, x: u64) -> [u64; 3]
    requires { (length t.now ≡ table_words) × (w < 2) }
    ensures { result ≡ step_word t.now b x w start 64 }
{
    let mut out = start;
    let mut rest = x;
    while rest != 0 {
        let k = u64::trailing_zeros(rest) as usize;
        let next = put(t, out, b, 64 * w + k);
        out = next;
        rest -= 1 << k;
    }
    out
}

// Returns what may come next after the places of `live` that accept b: the automaton's step.
pub fn step(t: &[u64], live: [u64; 3], b: u8) -> [u64; 3]
    requires { length t.now ≡ table_words }
    ensures { result ≡ step_of t.now live b }
{
    let out = step_word(t, b, [0u64; 3], 0, live[0]);
    step_word(t, b, out, 1, live[1])
}
