// The bytes that lead on from a set.
ghost use Rattle.std.specs.Prelude.{◌≡◌, true, ℕ, ◌≤◌, ◌<◌, length, get_or, IfSome};
ghost use Rattle.lists.specs.Digit.{bit};
ghost use Rattle.ere_table.specs.Table.{table_words};
ghost use Rattle.ere_search.specs.Walk.{step};
ghost use Rattle.ere_automaton.specs.Layout.{rows_at, class_in};
ghost use Rattle.ere_classes.specs.Column.{Classified};
ghost use Rattle.ere_classes.specs.Bounds.{Below64};
ghost use Rattle.ere_shapes.specs.Leads.{Leads};

use ere_table::PLACES;

// Returns the classes of the bytes that lead from the set s to `next`.
fn alike(t: &[u64], bytes: &[u8], k: usize, s: [u64; 3], next: [u64; 3]) -> u64
    requires { (length t.now ≡ table_words) × (k ≤ 64) × (k ≤ length bytes.now) }
    ensures { (c : ℕ) → c < 64 → bit result c ≡ true
        → step t.now s (get_or bytes.now c 0) ≡ next }
{
    let mut out: u64 = 0;
    for c in 0..k {
        if ere_search::step(t, s, bytes[c]) == next {
            out |= 1 << c;
        }
    }
    out
}

// Tells whether the classes of the bytes from `low` up to `high`, and of `high`, are in a set.
fn are_in(d: &[u16], set: u64, low: usize, high: usize) -> bool
    requires { (rows_at ≤ length d.now) × (Below64 d.now) × (high < 256) }
    ensures { result ≡ true → (b : ℕ) → low ≤ b → b ≤ high → bit set (class_in d.now b) ≡ true }
{
    for b in low..high + 1 {
        if !ere_classes::has_class(d, set, b) {
            return false;
        }
    }
    true
}

// Returns the bytes that lead on from a set in which no match has ended, if they are a range and lead to the same: the
// lowest, and 256 times how many more there are.
pub fn next_range(t: &[u64], bytes: &[u8], k: usize, d: &[u16], s: [u64; 3]) -> Option<usize>
    requires { (length t.now ≡ table_words) × (k ≤ length bytes.now) × (rows_at ≤ length d.now)
        × (Classified t.now bytes.now k d.now) }
    ensures { IfSome result (λ r. (r < 65536) × Leads t.now s r) }
{
    if ere_table::has(s, PLACES) | ere_table::has(s, PLACES + 1) {
        return None;
    }
    let (low, high) = ere_classes::ends(d, ere_classes::led(t, bytes, k, s, 0))?;
    let next = ere_search::step(t, s, low as u8);
    if !are_in(d, alike(t, bytes, k, s, next), low, high) {
        return None;
    }
    Some(low + 256 * (high - low))
}
