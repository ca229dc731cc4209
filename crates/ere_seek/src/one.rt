// One start: the longest match from it.
ghost use Rattle.std.specs.Prelude.{◌≡◌, false, ◌+◌, ◌≤◌, ◌<◌, ◌^◌, length, eqb};
ghost use Rattle.ere_automaton.specs.Layout.{pairs_word};
ghost use Rattle.ere_automaton.specs.Automaton.{Ranged};
ghost use Rattle.ere_automaton.specs.Scan.{Ready};
ghost use Rattle.ere_seek.specs.One.{stepped, stepped_twice, Begun, Paired, Followed, Longest};

use crate::states;
use ere_automaton::{ACCEPTED, CLASS_COUNT, PAIRS};

// How far a start is followed: the state there, the place, and the end of the longest match so far. The loops below go
// by the place in it, and not by a `for`, since their promises (`Paired`, `Followed`) are of all three together.
#[derive(Drop)]
struct Reached {
    state: usize,
    at: usize,
    best: usize,
}

// Follows a start by two bytes.
fn two_more(d: &[u16], k: usize, x: &[u8], l: Reached) -> Reached
    requires { (Ready d.now k l.state) × (eqb (pairs_word d.now) 0 ≡ false) × (l.at + 3 ≤ length x.now) }
    ensures { result ≡ stepped_twice d.now x.now l }
{
    let i = l.at;
    let s = l.state;
    let m = states::next(d, s, x[i]);
    let q = states::pair(d, k, s, x[i], x[i + 1]);
    let middle = states::accepted(states::accept_bits(d, k, m), false);
    let b = states::either(middle, i + 1, l.best);
    let end = states::accepted(states::accept_bits(d, k, q), false);
    Reached {
        state: q,
        at: i + 2,
        best: states::either(end, i + 2, b),
    }
}

// Follows a start by pairs, as long as two bytes and one more are left. Where no match has ended at `until`, it gives
// up.
fn by_two(d: &[u16], k: usize, x: &[u8], from: Reached, s: usize, until: usize) -> Reached
    requires { (Begun d.now k x.now s from) × (eqb (pairs_word d.now) 0 ≡ false) }
    ensures { Paired d.now x.now s until from result }
{
    let dead = d[ACCEPTED] as usize;
    let mut l = from;
    while l.at + 3 <= x.len() {
        l = two_more(d, k, x, l);
        if l.state == dead {
            return l;
        }
        if (until <= l.at) & (l.best == s) {
            return Reached {
                state: dead,
                at: l.at,
                best: s,
            };
        }
    }
    l
}

// Follows a start by a byte.
fn one_more(d: &[u16], k: usize, x: &[u8], l: Reached) -> Reached
    requires { (Ready d.now k l.state) × (l.at < length x.now) }
    ensures { result ≡ stepped d.now x.now (eqb (l.at + 1) (length x.now)) l }
{
    let i = l.at;
    let s = l.state;
    let q = states::next(d, s, x[i]);
    let end = states::accepted(states::accept_bits(d, k, q), i + 1 == x.len());
    Reached {
        state: q,
        at: i + 1,
        best: states::either(end, i + 1, l.best),
    }
}

// Follows a start by bytes, to the text's end.
fn by_one(d: &[u16], k: usize, x: &[u8], from: Reached) -> usize
    requires { (Ready d.now k from.state) × (from.best ≤ from.at) × (from.at ≤ length x.now) }
    ensures { Followed d.now x.now from result }
{
    let dead = d[ACCEPTED] as usize;
    let mut l = from;
    while l.at < x.len() {
        l = one_more(d, k, x, l);
        if l.state == dead {
            return l.best;
        }
    }
    l.best
}

// Returns the end of the longest nonempty match from s, or s. Where none has ended at `until`, it may give up.
pub fn longest(d: &[u16], x: &[u8], s: usize, first: bool, until: usize) -> usize
    requires { (Ranged d.now) × (s ≤ length x.now) × (length x.now < 2 ^ 63) }
    ensures { Longest d.now x.now s first until result }
{
    let k = d[CLASS_COUNT] as usize;
    let dead = d[ACCEPTED] as usize;
    let mut l = Reached {
        state: states::entered(d, first),
        at: s,
        best: s,
    };
    if d[PAIRS] != 0 {
        l = by_two(d, k, x, l, s, until);
        if l.state == dead {
            return l.best;
        }
    }
    by_one(d, k, x, l)
}
