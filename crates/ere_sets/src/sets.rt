// The sets of places that the states stand for.
ghost use Rattle.std.specs.Prelude.{◌≡◌, true, ℕ, ◌+◌, ◌*◌, ◌≤◌, ◌<◌, length, IfSome};
ghost use Rattle.ere_table.specs.Table.{table_words, row};
ghost use Rattle.ere_automaton.specs.Sets.{collapsed as collapsedOf, after as after_of};
ghost use Rattle.ere_automaton.specs.Follows.{pending_after};
ghost use Rattle.ere_sets.specs.Modes.{change_by, first_by, later_by, last_by};
ghost use Rattle.ere_sets.specs.Growth.{state_count, set_words, Fair, Put, Enters};

use ere_table::PLACES;

// What the states of an automaton stand for: all starts, one at each place; one start; the starts before a place.
pub const ALL: u64 = 0;

pub const ONE: u64 = 1;

pub const PENDING: u64 = 2;

// Returns the set u; but a set in which a match has ended is the same whatever else is in it.
fn collapsed(u: [u64; 3]) -> [u64; 3]
    ensures { result ≡ collapsedOf u }
{
    if ere_table::has(u, PLACES) {
        return [0, 0, u[2]];
    }
    u
}

// Returns what may come next after the byte b, with a match that starts after it.
fn after(t: &[u64], s: [u64; 3], b: u8) -> [u64; 3]
    requires { length t.now ≡ table_words }
    ensures { result ≡ after_of t.now s b }
{
    if ere_table::has(s, PLACES) {
        return s;
    }
    let x = ere_search::step(t, s, b);
    let y = ere_table::union(x, ere_classes::set_at(t, 1));
    collapsed(y)
}

// Returns what may come next after the byte b of the matches that start before it or at it, of at least a byte each.
fn pending_after(t: &[u64], s: [u64; 3], b: u8) -> [u64; 3]
    requires { length t.now ≡ table_words }
    ensures { result ≡ pending_after t.now s b }
{
    if ere_table::has(s, PLACES) {
        return s;
    }
    let x = ere_table::union(s, ere_classes::set_at(t, 1));
    collapsed(ere_search::step(t, x, b))
}

// Returns what may come next after the byte b, by the mode.
pub fn change(t: &[u64], mode: u64, s: [u64; 3], b: u8) -> [u64; 3]
    requires { length t.now ≡ table_words }
    ensures { result ≡ change_by mode t.now s b }
{
    match mode {
        ALL => after(t, s, b),
        ONE => ere_search::step(t, s, b),
        _ => pending_after(t, s, b),
    }
}

// Returns the set at the text's start.
pub fn first(t: &[u64], mode: u64) -> [u64; 3]
    requires { length t.now ≡ table_words }
    ensures { result ≡ first_by mode t.now }
{
    let s = ere_classes::set_at(t, 0);
    match mode {
        ALL => collapsed(s),
        ONE => s,
        _ => [s[0], s[1], 0],
    }
}

// Returns the set elsewhere, where nothing is pending.
pub fn later(t: &[u64], mode: u64) -> [u64; 3]
    requires { length t.now ≡ table_words }
    ensures { result ≡ later_by mode t.now }
{
    let s = ere_classes::set_at(t, 1);
    match mode {
        ALL => collapsed(s),
        ONE => s,
        _ => ere_table::NOTHING,
    }
}

// Returns the set that no byte changes.
pub fn last(mode: u64) -> [u64; 3]
    ensures { result ≡ last_by mode }
{
    match mode {
        ONE => ere_table::NOTHING,
        _ => ere_table::ACCEPT,
    }
}

// Tells whether a match that may end before the text's end may end at it.
fn is_fair(s: [u64; 3]) -> bool
    ensures { result ≡ true → Fair s }
{
    if ere_table::has(s, PLACES) {
        return ere_table::has(s, PLACES + 1);
    }
    true
}

// Returns the number of the first of n sets that is s.
fn find(sets: &[u64], n: usize, s: [u64; 3]) -> Option<usize>
    requires { 3 * n ≤ length sets.now }
    ensures { IfSome result (λ i. (i < n) × (row sets.now i ≡ s)) }
{
    for i in 0..n {
        if ere_classes::set_at(sets, i) == s {
            return Some(i);
        }
    }
    None
}

// Stores s as set i.
fn put(sets: &mut [u64], i: usize, s: [u64; 3])
    requires { 3 * i + 3 ≤ length sets.old }
    ensures { Put sets.old i s sets.new }
{
    ere_table::put_three(sets, 3 * i, s);
}

// How many sets there are, and the number of the one that was sought.
#[derive(Drop)]
pub struct Entered {
    pub count: usize,
    pub number: usize,
}

// Enters a set, if it is new and there is room for it; most is how many there is room for.
pub fn enter(sets: &mut [u64], count: usize, most: usize, s: [u64; 3]) -> Option<Entered>
    requires { (count ≤ most) × (most ≤ state_count) × (length sets.old ≡ set_words) }
    ensures { Enters sets.old count most s result sets.new }
{
    if let Some(number) = find(sets, count, s) {
        return Some(Entered { count, number });
    }
    if (count == most) | !is_fair(s) {
        return None;
    }
    put(sets, count, s);
    Some(Entered {
        count: count + 1,
        number: count,
    })
}
