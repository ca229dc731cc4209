// Building a table.
ghost use Rattle.std.specs.Prelude.{◌≡◌, ◌+◌, ◌≤◌, ◌<◌, length};
ghost use Rattle.ere_table.specs.Table.{table_words, place_count, row, join};
ghost use Rattle.ere_table.specs.Build.{words_at, three_at, with_row, link_rows, with_class, entered, begin_of, empty_of, sealed};
ghost use Rattle.ere_table.specs.Build.{link as link_of, gather as gatherOf, single as singleOf, join_class, or_stop};

use crate::layout;
use crate::layout::{ACCEPT_BITS, BEGIN, EMPTY, PLACES, ROWS};

// Returns the set x with y in place of its accept bits: what comes after a part continues it.
pub fn link(x: [u64; 3], y: [u64; 3]) -> [u64; 3]
    ensures { result ≡ link_of x y }
{
    if layout::has(x, PLACES) {
        return [x[0] | y[0], x[1] | y[1], x[2] & y[2]];
    }
    [x[0], x[1], x[2] & y[2]]
}

// Returns the union of the sets x and y.
pub fn union(x: [u64; 3], y: [u64; 3]) -> [u64; 3]
    ensures { result ≡ join x y }
{
    [x[0] | y[0], x[1] | y[1], x[2] | y[2]]
}

// Returns the set x with both accept bits.
pub fn or_stop(x: [u64; 3]) -> [u64; 3]
    ensures { result ≡ or_stop x }
{
    [x[0], x[1], ACCEPT_BITS]
}

// Returns the set of the place p alone.
pub fn single(p: usize) -> [u64; 3]
    requires { p < place_count }
    ensures { result ≡ singleOf p }
{
    if p < 64 {
        return [1 << p, 0, 0];
    }
    [0, 1 << (p - 64), 0]
}

// Stores a few words, from index `at` on.
fn put_words<const N: usize>(s: &mut [u64], at: usize, x: [u64; N])
    requires { at + N ≤ length s.old }
    ensures { s.new ≡ words_at s.old at x.entry N }
{
    for k in 0..N {
        s[at + k] = x[k];
    }
}

// Stores three words, from index `at` on.
pub fn put_three(s: &mut [u64], at: usize, x: [u64; 3])
    requires { at + 3 ≤ length s.old }
    ensures { s.new ≡ three_at s.old at x }
{
    put_words(s, at, x);
}

// Sets row r of the table.
pub fn put_row(t: &mut [u64], r: usize, x: [u64; 3])
    requires { (length t.old ≡ table_words) × (r < place_count + 2) }
    ensures { t.new ≡ with_row t.old r x }
{
    put_three(t, 3 * r, x);
}

// Replaces the accept bits of row r by y.
pub fn link_row(t: &mut [u64], r: usize, y: [u64; 3])
    requires { (length t.old ≡ table_words) × (r < place_count + 2) }
    ensures { t.new ≡ with_row t.old r (link_of (row t.old r) y) }
{
    let x = [t[3 * r], t[3 * r + 1], t[3 * r + 2]];
    let z = link(x, y);
    put_row(t, r, z);
}

// Replaces the accept bits of n rows, from r on, by y.
pub fn link_rows(t: &mut [u64], r: usize, n: usize, y: [u64; 3])
    requires { (length t.old ≡ table_words) × (r + n ≤ place_count + 2) }
    ensures { t.new ≡ link_rows t.old r n y }
{
    for i in 0..n {
        link_row(t, r + i, y);
    }
}

// Sets the class of the place p: bit b % 64 of word b / 64 says whether it takes the byte b.
pub fn put_class(t: &mut [u64], p: usize, c: [u64; 4])
    requires { (length t.old ≡ table_words) × (p < place_count) }
    ensures { t.new ≡ with_class t.old p c }
{
    put_words(t, ROWS + 4 * p, c);
}

// Tells whether a match may begin with the place p.
fn enters(t: &[u64], p: usize) -> bool
    requires { (length t.now ≡ table_words) × (p < place_count) }
    ensures { result ≡ entered t.now p }
{
    ((t[p / 64] | t[3 + p / 64]) >> (p % 64)) % 2 == 1
}

// Returns the class out with the bytes of the place p.
fn with_class(t: &[u64], out: [u64; 4], p: usize) -> [u64; 4]
    requires { (length t.now ≡ table_words) × (p < place_count) }
    ensures { result ≡ join_class t.now out p }
{
    let i = ROWS + 4 * p;
    [
        out[0] | t[i],
        out[1] | t[i + 1],
        out[2] | t[i + 2],
        out[3] | t[i + 3],
    ]
}

// Returns the class out with the bytes of the place p, if a match may begin there.
fn gather(t: &[u64], out: [u64; 4], p: usize) -> [u64; 4]
    requires { (length t.now ≡ table_words) × (p < place_count) }
    ensures { result ≡ gatherOf t.now out p }
{
    if enters(t, p) {
        return with_class(t, out, p);
    }
    out
}

// Returns the bytes that a match of at least a byte can begin with.
fn begin(t: &[u64]) -> [u64; 4]
    requires { length t.now ≡ table_words }
    ensures { result ≡ begin_of t.now }
{
    let mut out = [0u64; 4];
    for p in 0..PLACES {
        let next = gather(t, out, p);
        out = next;
    }
    out
}

// Returns 1 if an entry row has an accept bit, else 0.
fn empty(t: &[u64]) -> u64
    requires { length t.now ≡ table_words }
    ensures { result ≡ empty_of t.now }
{
    if t[2] == 0 && t[5] == 0 { 0 } else { 1 }
}

// Writes the table's last five words, from its rows and classes: the bytes that a match can begin with, and whether one
// may be empty.
pub fn put_first_bytes(t: &mut [u64])
    requires { length t.old ≡ table_words }
    ensures { t.new ≡ sealed t.old }
{
    let c = begin(t);
    let e = empty(t);
    put_words(t, BEGIN, c);
    t[EMPTY] = e;
}
