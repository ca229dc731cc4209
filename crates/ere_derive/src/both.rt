// Both automata of a leftmost longest search.
ghost use Rattle.std.specs.Prelude.{◌≡◌, true, ℕ, ◌≤◌, ◌<◌, length};
ghost use Rattle.ere_table.specs.Table.{table_words};
ghost use Rattle.ere_automaton.specs.Layout.{rows_at};
ghost use Rattle.ere_derive.specs.Both.{Nested, HeadedBoth};
ghost use Rattle.ere_derive.specs.Derived.{DerivedBoth};

use crate::{build, layout};

// Tells whether all that may start elsewhere may start at the text's start.
fn is_nested(t: &[u64]) -> bool
    requires { length t.now ≡ table_words }
    ensures { result ≡ true → Nested t.now }
{
    ((t[0] | t[3]) == t[0]) & (((t[1] | t[4]) == t[1]) & (t[5] % 2 <= t[2] % 2))
}

// Stores the length of the first automaton, and the accept bits of the empty match at the text's start and elsewhere.
fn put_both(t: &[u64], d: &mut [u16], n: usize)
    requires { (length t.now ≡ table_words) × (rows_at ≤ length d.old) × (n < 65536) }
    ensures { HeadedBoth t.now n d.old d.new }
{
    d[layout::LENGTH] = n as u16;
    d[layout::EMPTY] = (t[2] % 4) as u16;
    d[layout::EMPTY + 1] = (t[5] % 4) as u16;
}

// Makes the automata of one start and of the starts before a place, one after the other, each with pairs if they fit
// below `pairs` words, and gives how many words they have, if there is room, and if what may start elsewhere may start
// at the text's start.
pub fn derive_both(t: &[u64], d: &mut [u16], pairs: usize) -> Option<usize>
    requires { (length t.now ≡ table_words) × (length d.old < 65536) }
    ensures { DerivedBoth t.now d.old result d.new }
{
    if !is_nested(t) {
        return None;
    }
    let n = build::derive_by(t, ere_sets::ONE, d, pairs)?;
    put_both(t, d, n);
    let m = build::derive_by(t, ere_sets::PENDING, &mut d[n..], pairs)?;
    Some(n + m)
}
