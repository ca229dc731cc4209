// The word that an ERE is.
ghost use Rattle.std.specs.Prelude.{◌≡◌, true, ◌≤◌, ◌<◌, length, IfSome};
ghost use Rattle.ere_table.specs.Table.{table_words};
ghost use Rattle.ere_automaton.specs.Layout.{rows_at, shape_word};
ghost use Rattle.ere_classes.specs.Column.{Classified};
ghost use Rattle.ere_shapes.specs.Leads.{Ended};
ghost use Rattle.ere_shapes.specs.Spelt.{Tested, Padded, Spelt, Kind, PutWord};

use crate::layout::{MOST_TESTS, TESTS};
use crate::{layout, leads};
use ere_table::PLACES;

// Tells whether a match has ended in a set, wherever the text ends.
fn ends(s: [u64; 3]) -> bool
    ensures { result ≡ true → Ended s true }
{
    ere_table::has(s, PLACES) & ere_table::has(s, PLACES + 1)
}

// Stores a test for byte q of a word that has e tests, if it is one byte; none is needed if it is any. Returns how many
// tests there are then, unless they are too many, or it is a range.
fn add_test(d: &mut [u16], e: usize, q: usize, range: usize) -> Option<usize>
    requires { (rows_at ≤ length d.old) × (e ≤ 7) × (q < 16) × (range < 65536) }
    ensures { Tested d.old e q range result d.new }
{
    if range / 256 == 255 {
        return Some(e);
    }
    if (255 < range) | (e == MOST_TESTS) {
        return None;
    }
    d[TESTS + e] = (range + 256 * q) as u16;
    Some(e + 1)
}

// Stores the first test again for those from e on.
fn pad_tests(d: &mut [u16], e: usize)
    requires { (rows_at ≤ length d.old) × (0 < e) × (e ≤ 7) }
    ensures { Padded e d.old d.new }
{
    for k in e..MOST_TESTS {
        d[TESTS + k] = d[TESTS];
    }
}

// Stores the tests of a word that starts where the text starts, and the range of its last byte. Returns 16 times how
// many tests there are, and how far the last byte is from the first, if the ERE is a word that the tests tell.
fn spell(t: &[u64], bytes: &[u8], k: usize, d: &mut [u16]) -> Option<usize>
    requires { (length t.now ≡ table_words) × (k ≤ length bytes.now) × (rows_at ≤ length d.old)
        × (Classified t.now bytes.now k d.old) }
    ensures { Spelt t.now d.old result d.new }
{
    let mut s = ere_classes::set_at(t, 0);
    let mut e: usize = 0;
    for q in 0..layout::MOST_BYTES {
        let range = leads::next_range(t, bytes, k, d, s)?;
        let next = ere_search::step(t, s, (range % 256) as u8);
        s = next;
        if ends(s) {
            if e == 0 {
                return None;
            }
            pad_tests(d, e);
            d[layout::RANGE] = range as u16;
            return Some(16 * e + q);
        }
        e = add_test(d, e, q, range)?;
    }
    None
}

// Returns the kind of an ERE that is a word, by where it may start: WORD if anywhere, FIRST_WORD if only where the text
// starts.
fn kind_of(t: &[u64]) -> Option<usize>
    requires { length t.now ≡ table_words }
    ensures { IfSome result (Kind t.now) }
{
    if ere_classes::set_at(t, 1) == ere_classes::set_at(t, 0) {
        return Some(layout::WORD);
    }
    if ere_classes::is_empty(ere_classes::set_at(t, 1)) {
        return Some(layout::FIRST_WORD);
    }
    None
}

// Stores what is known of the matches' bytes, if the ERE is a word, or one where the text starts.
pub fn put_word(t: &[u64], bytes: &[u8], k: usize, d: &mut [u16])
    requires { (length t.now ≡ table_words) × (k ≤ length bytes.now) × (rows_at ≤ length d.old)
        × (Classified t.now bytes.now k d.old) × (shape_word d.old ≡ 0) }
    ensures { PutWord t.now d.old d.new }
{
    if let Some(kind) = kind_of(t) {
        if let Some(n) = spell(t, bytes, k, d) {
            d[layout::SHAPE] = (kind + n) as u16;
        }
    }
}
