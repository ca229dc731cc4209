// How far matches reach that end at the text's end.
ghost use Rattle.std.specs.Prelude.{◌≡◌, true, List, ℕ, ◌≤◌, length, IfSome};
ghost use Rattle.ere_table.specs.Table.{table_words, no_place};
ghost use Rattle.ere_classes.specs.Column.{Classified};
ghost use Rattle.ere_classes.specs.Reach.{Nexts, Ends, Reaches};

use crate::{layout, sets};
use ere_table::PLACES;

// Returns what may come next after the set s and a byte of some class.
fn next_of(t: &[u64], bytes: &[u8], k: usize, s: [u64; 3]) -> [u64; 3]
    requires { (length t.now ≡ table_words) × (k ≤ length bytes.now) }
    ensures { Nexts t.now bytes.now k s result }
{
    let mut out = ere_table::NOTHING;
    for c in 0..k {
        let next = ere_table::union(out, ere_search::step(t, s, bytes[c]));
        out = next;
    }
    out
}

// Tells whether nothing is in a set.
pub fn is_empty(s: [u64; 3]) -> bool
    ensures { result ≡ true → s ≡ no_place }
{
    s == ere_table::NOTHING
}

// Returns after how many bytes nothing is left of a set, if no match has ended before, and if they are not too many.
fn reach_from(t: &[u64], bytes: &[u8], k: usize, start: [u64; 3]) -> Option<usize>
    requires { (length t.now ≡ table_words) × (k ≤ length bytes.now) }
    ensures { IfSome result (λ n. (n ≤ 17) × ((d : List ℕ) → Classified t.now bytes.now k d → Ends t.now n start)) }
{
    let mut s = start;
    for n in 0..layout::MOST_REACH + 1 {
        if is_empty(s) {
            return Some(n);
        }
        if ere_table::has(s, PLACES) {
            return None;
        }
        let next = next_of(t, bytes, k, s);
        s = next;
    }
    None
}

// Returns one more than the bytes of the longest match, if each match ends at the text's end and has at most 16; else
// 0.
pub fn reach(t: &[u64], bytes: &[u8], k: usize) -> usize
    requires { (length t.now ≡ table_words) × (k ≤ length bytes.now) }
    ensures { (result ≤ 17)
        × ((d : List ℕ) → Classified t.now bytes.now k d → Reaches t.now result) }
{
    let start = ere_table::union(sets::set_at(t, 0), sets::set_at(t, 1));
    reach_from(t, bytes, k, start).unwrap_or(0)
}
