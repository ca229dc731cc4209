// An automaton from a table.
ghost use Rattle.std.specs.Prelude.{◌≡◌, ℕ, ◌+◌, ◌*◌, ◌≤◌, ◌<◌, length};
ghost use Rattle.ere_table.specs.Table.{table_words};
ghost use Rattle.ere_automaton.specs.Layout.{rows_at, stride_by, Testable};
ghost use Rattle.ere_automaton.specs.Automaton.{Hull};
ghost use Rattle.ere_classes.specs.Column.{Classified};
ghost use Rattle.ere_derive.specs.Layout.{Headed};
ghost use Rattle.ere_derive.specs.Derived.{Derived, DerivedBy, Attempted, Prepared};

use crate::layout::ROWS;
use crate::{layout, pairs, rows};

// Returns how many states there is room for.
fn states_in(length: usize, stride: usize) -> usize
    requires { (rows_at ≤ «length») × (0 < stride) }
    ensures { (result ≤ 96) × (rows_at + stride * result ≤ «length») }
{
    let n = (length - ROWS) / stride;
    if n < layout::MOST_STATES {
        n
    } else {
        layout::MOST_STATES
    }
}

// Stores the first words of an automaton of k classes.
fn put_head(d: &mut [u16], k: usize, first: usize, later: usize, accepted: usize, pairs: u16)
    requires { (rows_at ≤ length d.old) × (k < 65536) × (first < 65536) × (later < 65536) × (accepted < 65536) }
    ensures { Headed d.old k first later accepted pairs d.new }
{
    d[layout::CLASS_COUNT] = k as u16;
    d[layout::FIRST] = first as u16;
    d[layout::LATER] = later as u16;
    d[layout::ACCEPTED] = accepted as u16;
    d[layout::PAIRS] = pairs;
}

// Returns the words of a row, with pairs (1) or without (0).
fn stride_of(k: usize, paired: u16) -> usize
    requires { k ≤ 64 }
    ensures { result ≡ stride_by k paired }
{
    if paired == 0 {
        return k + 1;
    }
    k + 1 + k * k
}

// Makes the rows and the head of an automaton whose classes and ranges are stored, and gives how many words it has, if
// there is room.
fn attempt(
    t: &[u64],
    mode: u64,
    bytes: &[u8],
    k: usize,
    d: &mut [u16],
    paired: u16,
) -> Option<usize>
    requires { (length t.now ≡ table_words) × (k ≤ length bytes.now) × (rows_at ≤ length d.old)
        × (length d.old < 65536) × (Classified t.now bytes.now k d.old) × (Hull t.now d.old)
        × (Testable d.old) }
    ensures { Attempted mode t.now d.old result d.new }
{
    let stride = stride_of(k, paired);
    let most = states_in(d.len(), stride);
    let mut all = [0u64; 3 * layout::MOST_STATES];
    let s = rows::begin(t, mode, &mut all, most)?;
    let n = rows::put_rows(t, mode, bytes, k, &mut all, s.count, most, stride, d)?;
    pairs::compose(d, k, stride, n, paired);
    put_head(
        d,
        k,
        ROWS + stride * s.first,
        ROWS + stride * s.later,
        ROWS + stride * s.accepted,
        paired,
    );
    Some(ROWS + stride * n)
}

// Makes rows with pairs, if they fit below `pairs` words, and gives how many words the automaton has, if there is room.
fn with_pairs(
    t: &[u64],
    mode: u64,
    bytes: &[u8],
    k: usize,
    d: &mut [u16],
    pairs: usize,
) -> Option<usize>
    requires { (length t.now ≡ table_words) × (k ≤ length bytes.now) × (rows_at ≤ length d.old)
        × (length d.old < 65536) × (Classified t.now bytes.now k d.old) × (Hull t.now d.old)
        × (Testable d.old) }
    ensures { Attempted mode t.now d.old result d.new }
{
    if pairs < ROWS {
        return None;
    }
    if d.len() < pairs {
        return None;
    }
    attempt(t, mode, bytes, k, &mut d[..pairs], 1)
}

// Makes rows with pairs, or where they don't fit without, and gives how many words the automaton has, if there is room.
fn finish(
    t: &[u64],
    mode: u64,
    bytes: &[u8],
    k: usize,
    d: &mut [u16],
    pairs: usize,
) -> Option<usize>
    requires { (length t.now ≡ table_words) × (k ≤ length bytes.now) × (rows_at ≤ length d.old)
        × (length d.old < 65536) × (Classified t.now bytes.now k d.old) × (Hull t.now d.old)
        × (Testable d.old) }
    ensures { Attempted mode t.now d.old result d.new }
{
    if let Some(r) = with_pairs(t, mode, bytes, k, d, pairs) {
        return Some(r);
    }
    attempt(t, mode, bytes, k, d, 0)
}

// Stores the class of each byte, with a byte of each, and the ranges of a match's first two bytes; gives how many
// classes there are, if there is room.
fn prepare(t: &[u64], bytes: &mut [u8], d: &mut [u16]) -> Option<usize>
    requires { (length t.now ≡ table_words) × (length bytes.old ≡ 64) }
    ensures { Prepared t.now bytes.old d.old result bytes.new
        d.new }
{
    if d.len() < ROWS {
        return None;
    }
    let k = ere_classes::put_classes(t, bytes, d)?;
    ere_classes::put_hull(t, bytes, k, d);
    Some(k)
}

// Makes the automaton of a table by a mode, with pairs if they fit below `pairs` words, and gives how many words it
// has, if there is room.
pub fn derive_by(t: &[u64], mode: u64, d: &mut [u16], pairs: usize) -> Option<usize>
    requires { (length t.now ≡ table_words) × (length d.old < 65536) }
    ensures { DerivedBy mode t.now d.old result d.new }
{
    let mut bytes = [0u8; ere_classes::MOST_CLASSES];
    let k = prepare(t, &mut bytes, d)?;
    finish(t, mode, &bytes, k, d, pairs)
}

// Makes the automaton for the existence of a match, with pairs if they fit below `pairs` words, and gives how many
// words it has, if there is room.
pub fn derive(t: &[u64], d: &mut [u16], pairs: usize) -> Option<usize>
    requires { (length t.now ≡ table_words) × (length d.old < 65536) }
    ensures { Derived t.now d.old result d.new }
{
    let mut bytes = [0u8; ere_classes::MOST_CLASSES];
    let k = prepare(t, &mut bytes, d)?;
    ere_shapes::put_word(t, &bytes, k, d);
    finish(t, ere_sets::ALL, &bytes, k, d, pairs)
}
