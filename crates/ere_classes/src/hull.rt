// Where no match starts: ranges of bytes outside of which no match has its first byte, and its second.
ghost use Rattle.std.specs.Prelude.{◌≡◌, false, List, ℕ, ◌+◌, ◌≤◌, ◌<◌, length, get_or, MatchOption};
ghost use Rattle.lists.specs.Digit.{bit};
ghost use Rattle.ere_table.specs.Table.{table_words, row, no_place};
ghost use Rattle.ere_search.specs.Walk.{step};
ghost use Rattle.ere_automaton.specs.Layout.{rows_at, class_in};
ghost use Rattle.ere_classes.specs.Column.{Classified};
ghost use Rattle.ere_classes.specs.Bounds.{Keeps, Led, Follows, SecondsOf, Below64, NoneIn, EndsOf, Range, PutHull};

use crate::layout::CLASSES;
use crate::{layout, reach, sets};
use ere_table::PLACES;

// A set of classes with all there are.
const ALL: u64 = 18446744073709551615;

// Returns the classes of the bytes that lead from the set s to something.
pub fn led(t: &[u64], bytes: &[u8], k: usize, s: [u64; 3], start: u64) -> u64
    requires { (length t.now ≡ table_words) × (k ≤ 64) × (k ≤ length bytes.now) }
    ensures { Led t.now bytes.now k s start result }
{
    let mut out = start;
    for c in 0..k {
        if !reach::is_empty(ere_search::step(t, s, bytes[c])) {
            out |= 1 << c;
        }
    }
    out
}

// Returns all classes that come second, with the byte b as the first; all there are where a match may end after it.
fn seconds_of(t: &[u64], bytes: &[u8], k: usize, b: u8, out: u64) -> u64
    requires { (length t.now ≡ table_words) × (k ≤ 64) × (k ≤ length bytes.now) }
    ensures { SecondsOf t.now bytes.now k
        (step t.now (row t.now 1) b) out result }
{
    let s = ere_search::step(t, sets::set_at(t, 1), b);
    if ere_table::has(s, PLACES) {
        return ALL;
    }
    led(t, bytes, k, s, out)
}

// Returns all classes that come second, over all first bytes.
fn seconds(t: &[u64], bytes: &[u8], k: usize) -> u64
    requires { (length t.now ≡ table_words) × (k ≤ 64) × (k ≤ length bytes.now) }
    ensures { (c : ℕ) → c < k → Follows t.now bytes.now k
        (step t.now (row t.now 1) (get_or bytes.now c 0)) result }
{
    let mut out: u64 = 0;
    for c in 0..k {
        out = seconds_of(t, bytes, k, bytes[c], out);
    }
    out
}

// Tells whether the class of the byte b is in a set.
pub fn has_class(d: &[u16], set: u64, b: usize) -> bool
    requires { (rows_at ≤ length d.now) × (b < 256) × (class_in d.now b < 64) }
    ensures { result ≡ bit set (class_in d.now b) }
{
    (set >> (d[CLASSES + b] as u64)) % 2 == 1
}

// Returns the first byte whose class is in a set.
fn lowest(d: &[u16], set: u64) -> Option<usize>
    requires { (rows_at ≤ length d.now) × (Below64 d.now) }
    ensures { MatchOption result (NoneIn set d.now 0 256) (λ low. (low < 256) × (NoneIn set d.now 0 low)) }
{
    for b in 0..256usize {
        if has_class(d, set, b) {
            return Some(b);
        }
    }
    None
}

// Returns the last byte from `low` on whose class is in a set, or `low`.
fn highest(d: &[u16], set: u64, low: usize) -> usize
    requires { (rows_at ≤ length d.now) × (Below64 d.now) × (low < 256) }
    ensures { (low ≤ result) × (result < 256) × (NoneIn set d.now (result + 1) 256) }
{
    for b in (low + 1..256).rev() {
        if has_class(d, set, b) {
            return b;
        }
    }
    low
}

// Returns the first and the last byte whose class is in a set, if there is one.
pub fn ends(d: &[u16], set: u64) -> Option<(usize, usize)>
    requires { (rows_at ≤ length d.now) × (Below64 d.now) }
    ensures { EndsOf set d.now result }
{
    let low = lowest(d, set)?;
    Some((low, highest(d, set, low)))
}

// Stores a range: its lowest byte, and how many more it has.
fn put_range(d: &mut [u16], at: usize, set: u64) -> usize
    requires { (at + 2 ≤ 16) × (rows_at ≤ length d.old) × (Below64 d.old) }
    ensures { Range d.old at set result d.new }
{
    let Some((low, high)) = ends(d, set) else {
        d[at] = 255;
        d[at + 1] = 0;
        return 1;
    };
    d[at] = low as u16;
    d[at + 1] = (high - low) as u16;
    high - low + 1
}

// Returns whether to look at ranges with so many pairs of bytes: 0 if not, FIXED if no match starts but where the text
// starts, else 1.
fn skips(t: &[u64], pairs: usize) -> u16
    requires { length t.now ≡ table_words }
    ensures { result ≡ 2 → row t.now 1 ≡ no_place }
{
    if reach::is_empty(sets::set_at(t, 1)) {
        return layout::FIXED;
    }
    if pairs <= 16384 { 1 } else { 0 }
}

// Stores both ranges, and whether to look at them; how far matches reach; and that nothing is known of their bytes.
pub fn put_hull(t: &[u64], bytes: &[u8], k: usize, d: &mut [u16])
    requires { (length t.now ≡ table_words) × (k ≤ length bytes.now) × (rows_at ≤ length d.old)
        × (Classified t.now bytes.now k d.old) }
    ensures { PutHull t.now bytes.now k d.old d.new }
{
    let firsts = led(t, bytes, k, sets::set_at(t, 1), 0);
    let n = put_range(d, layout::LOW, firsts);
    let m = put_range(d, layout::NEXT_LOW, seconds(t, bytes, k));
    d[layout::SKIPS] = skips(t, n * m);
    d[layout::REACH] = reach::reach(t, bytes, k) as u16;
    d[layout::SHAPE] = 0;
}
