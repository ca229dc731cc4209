// The states after two bytes.
ghost use Rattle.std.specs.Prelude.{◌≡◌, cond, ℕ, ◌+◌, ◌*◌, ◌≤◌, ◌<◌, length, get_or, eqb};
ghost use Rattle.ere_automaton.specs.Layout.{rows_at, stride_by};
ghost use Rattle.ere_classes.specs.Frames.{Frame};
ghost use Rattle.ere_derive.specs.Layout.{Apart, Closed, Paired, PutPairs};

use crate::layout::ROWS;

// Copies k words from p to q.
fn copy_words(d: &mut [u16], p: usize, q: usize, k: usize)
    requires { (p + k ≤ length d.old) × (q + k ≤ length d.old) }
    ensures { (Frame q (q + k) d.old d.new)
        × ((e : ℕ) → e < k → get_or d.new (q + e) 0 ≡ get_or d.old (p + e) 0) }
{
    d.copy_within(p..p + k, q);
}

// Stores the pairs of the row at p.
fn put_pairs_in(d: &mut [u16], k: usize, p: usize)
    requires { (p + (k + 1 + k * k) ≤ length d.old) × (length d.old < 65536)
        × ((c : ℕ) → c < k → (get_or d.old (p + c) 0 + k ≤ length d.old)
        × (Apart (get_or d.old (p + c) 0) k (p + (k + 1)) (p + (k + 1 + k * k)))) }
    ensures { (Frame (p + (k + 1)) (p + (k + 1 + k * k)) d.old d.new)
        × (Paired k d.old d.new p k) }
{
    for c in 0..k {
        let next = d[p + c] as usize;
        copy_words(d, next, p + (k + 1 + c * k), k);
    }
}

// Stores the pairs of n rows.
fn put_pairs(d: &mut [u16], k: usize, stride: usize, n: usize)
    requires { (stride ≡ k + 1 + k * k) × (rows_at + stride * n ≤ length d.old) × (length d.old < 65536)
        × ((i : ℕ) → i < n → Closed k n stride d.old (rows_at + stride * i)) }
    ensures { PutPairs k n stride n d.old d.new }
{
    for i in 0..n {
        put_pairs_in(d, k, ROWS + stride * i);
    }
}

// Stores the pairs of n rows, if rows have pairs (`paired` is not 0).
pub fn compose(d: &mut [u16], k: usize, stride: usize, n: usize, paired: u16)
    requires { (stride ≡ stride_by k paired) × (rows_at + stride * n ≤ length d.old) × (length d.old < 65536)
        × ((i : ℕ) → i < n → Closed k n stride d.old (rows_at + stride * i)) }
    ensures { PutPairs k n stride (cond (eqb paired 0) 0 n) d.old d.new }
{
    if paired != 0 {
        put_pairs(d, k, stride, n);
    }
}
