// Classes of bytes: bytes in one class are taken by the same places of the ERE.
ghost use Rattle.std.specs.Prelude.{◌≡◌, true, ℕ, suc, ◌+◌, ◌-◌, ◌*◌, ◌≤◌, ◌<◌, length, get_or, IfSome};
ghost use Rattle.ere_table.specs.Table.{table_words, place_count};
ghost use Rattle.ere_automaton.specs.Layout.{rows_at};
ghost use Rattle.ere_classes.specs.Column.{taken_by, column_of, Used, first_word, Classed, Classifies, Classes};

use crate::layout;
use crate::layout::CLASSES;
use ere_table::{PLACES, ROWS};

// Tells whether the place p accepts no byte.
fn takes_none(t: &[u64], p: usize) -> bool
    requires { (length t.now ≡ table_words) × (p < place_count) }
    ensures { result ≡ true → (b : ℕ) → b < 256 → taken_by t.now b p ≡ 0 }
{
    let i = ROWS + 4 * p;
    ((t[i] == 0) & (t[i + 1] == 0)) & ((t[i + 2] == 0) & (t[i + 3] == 0))
}

// Returns how many places there are up to the last that accepts a byte.
fn used_places(t: &[u64]) -> usize
    requires { length t.now ≡ table_words }
    ensures { Used t.now result }
{
    for p in (0..PLACES).rev() {
        if !takes_none(t, p) {
            return p + 1;
        }
    }
    0
}

// Returns 1 if the place p accepts the byte b, else 0.
fn taken(t: &[u64], b: u8, p: usize) -> u64
    requires { (length t.now ≡ table_words) × (p < place_count) }
    ensures { result ≡ taken_by t.now b p }
{
    (t[ROWS + 4 * p + (b / 64) as usize] >> (b % 64)) % 2
}

// Returns the places from `from` up to `to` that accept the byte b, as bits.
fn column(t: &[u64], b: u8, from: usize, to: usize) -> u64
    requires { (length t.now ≡ table_words) × (from ≤ to) × (to ≤ from + 64) × (to ≤ place_count) }
    ensures { result ≡ column_of t.now b from (to - from) }
{
    let mut c: u64 = 0;
    for p in from..to {
        c = 2 * c + taken(t, b, p);
    }
    c
}

// Returns the number of the first of k columns whose words are x and y, if there is one.
fn find_column(columns: &[u64], k: usize, x: u64, y: u64) -> Option<usize>
    requires { 2 * k ≤ length columns.now }
    ensures { IfSome result (λ j. (j < k) × (get_or columns.now (2 * j) 0 ≡ x)
        × (get_or columns.now (2 * j + 1) 0 ≡ y)) }
{
    for j in 0..k {
        if (columns[2 * j] == x) & (columns[2 * j + 1] == y) {
            return Some(j);
        }
    }
    None
}

// Returns how many of n places are in the first word of a column.
fn first_word(n: usize) -> usize
    requires { n ≤ place_count }
    ensures { (result ≡ first_word n) × (result ≤ n) × (result ≤ 64) × (n ≤ result + 64) }
{
    if n < 64 { n } else { 64 }
}

// Stores the class of the byte b, of k classes, and the column and the byte of a new class; gives how many classes
// there are then.
fn classify(
    t: &[u64],
    b: u8,
    n: usize,
    columns: &mut [u64],
    k: usize,
    bytes: &mut [u8],
    d: &mut [u16],
) -> usize
    requires { (length t.now ≡ table_words) × (n ≤ place_count) × (k < 64) × (length columns.old ≡ 128)
        × (length bytes.old ≡ 64) × (rows_at ≤ length d.old) }
    ensures { Classifies t.now n b columns.old k bytes.old d.old result
        columns.new bytes.new d.new }
{
    let m = first_word(n);
    let x = column(t, b, 0, m);
    let y = column(t, b, m, n);
    if let Some(j) = find_column(columns, k, x, y) {
        d[CLASSES + b as usize] = j as u16;
        return k;
    }
    d[CLASSES + b as usize] = k as u16;
    columns[2 * k] = x;
    columns[2 * k + 1] = y;
    bytes[k] = b;
    k + 1
}

// Stores the class of each byte, and a byte of each class; gives how many classes there are, unless they are too many.
pub fn put_classes(t: &[u64], bytes: &mut [u8], d: &mut [u16]) -> Option<usize>
    requires { (length t.now ≡ table_words) × (length bytes.old ≡ 64) × (rows_at ≤ length d.old) }
    ensures { Classes t.now bytes.old d.old result bytes.new
        d.new }
{
    let n = used_places(t);
    let mut columns = [0u64; 2 * layout::MOST_CLASSES];
    let mut k: usize = 0;
    for b in 0..256usize {
        if k == layout::MOST_CLASSES {
            return None;
        }
        k = classify(t, b as u8, n, &mut columns, k, bytes, d);
    }
    Some(k)
}
