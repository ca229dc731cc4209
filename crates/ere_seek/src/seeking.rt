// The leftmost longest match.
ghost use Rattle.std.specs.Prelude.{◌≡◌, List, ℕ, ◌+◌, ◌≤◌, ◌<◌, ◌^◌, length};
ghost use Rattle.ere_search.specs.Find.{Inside, Finds};
ghost use Rattle.ere_automaton.specs.Automaton.{Ranged};
ghost use Rattle.ere_automaton.specs.Follows.{SeekRanged, Seeks};
ghost use Rattle.ere_seek.specs.Seeking.{empty_at, SoughtFrom, SoughtBoth, FindsBoth};

use crate::{one, pending, starts, states};
use ere_automaton::{ACCEPTED, EMPTY, LATER, LENGTH};

// How many bytes the first start is followed before all starts are.
const FAR: usize = 64;

// Tells whether the empty text is a match, where the text starts or elsewhere, and where it ends or before that.
fn empty_at(d: &[u16], first: bool, last: bool) -> bool
    requires { Ranged d.now }
    ensures { result ≡ empty_at d.now first last }
{
    if first {
        return states::accepted(d[EMPTY], last);
    }
    states::accepted(d[EMPTY + 1], last)
}

// Finds the leftmost nonempty match from `from` on. No `for`: s goes on to where `candidate` says.
fn seek_from(d: &[u16], x: &[u8], at: usize, from: usize) -> Option<(usize, usize)>
    requires { (Ranged d.now) × (at + length x.now < 2 ^ 63) × (from ≤ length x.now + 1) }
    ensures { SoughtFrom d.now x.now at from result }
{
    let mut s = from;
    while s < x.len() {
        s = starts::candidate(d, x, s, at + s == 0);
        if s < x.len() {
            let e = one::longest(d, x, s, at + s == 0, x.len());
            if s < e {
                return Some((at + s, e - s));
            }
        }
        s += 1;
    }
    None
}

// Finds the leftmost nonempty match: from the first start where one may be, and if no match starts elsewhere than at
// the text's start, from no other; if it is given up, from where nothing is pending.
fn seek_some(d: &[u16], p: &[u16], x: &[u8], at: usize) -> Option<(usize, usize)>
    requires { (Ranged d.now) × (Ranged p.now) × (at + length x.now < 2 ^ 63) }
    ensures { SoughtBoth d.now p.now x.now at result }
{
    let s = starts::candidate(d, x, 0, at == 0);
    if x.len() <= s {
        return None;
    }
    let only = d[LATER] == d[ACCEPTED];
    let until = states::either(only, x.len(), s + FAR);
    let e = one::longest(d, x, s, at + s == 0, until);
    if s < e {
        return Some((at + s, e - s));
    }
    if only {
        return None;
    }
    let f = pending::first_start(p, x, s, at + s == 0);
    seek_from(d, x, at, f)
}

// Finds the leftmost longest match by both automata.
fn seek_both(d: &[u16], p: &[u16], x: &[u8], at: usize, least: usize) -> Option<(usize, usize)>
    requires { (Ranged d.now) × (Ranged p.now) × (at + length x.now < 2 ^ 63) × (least ≤ 1) }
    ensures { FindsBoth d.now p.now x.now at least result }
{
    if least == 0 && empty_at(d, at == 0, x.len() == 0) {
        let e = one::longest(d, x, 0, at == 0, x.len());
        return Some((at, e));
    }
    if let Some(m) = seek_some(d, p, x, at) {
        return Some(m);
    }
    if least == 0 && empty_at(d, at + x.len() == 0, true) {
        return Some((at + x.len(), 0));
    }
    None
}

// Finds the leftmost longest match of at least so many bytes. `rest` is the whole text from place `at` on. It is passed
// on as a slice made anew, so that its address and its length are read one by one: read as one, right after a caller has
// stored them, they are waited for.
pub fn seek(d: &[u16], rest: &[u8], at: usize, least: usize) -> Option<(usize, usize)>
    requires { (SeekRanged d.now) × (at + length rest.now < 2 ^ 63) × (least ≤ 1) }
    ensures { (Inside at least (length rest.now) result)
        × ((t : List ℕ) → Seeks t d.now → Finds t rest.now at least result) }
{
    let n = d[LENGTH] as usize;
    let m = rest.len();
    seek_both(&d[..n], &d[n..], &rest[..m], at, least)
}
