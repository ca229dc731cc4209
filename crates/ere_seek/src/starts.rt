// Where a match may start.
ghost use Rattle.std.specs.Prelude.{◌≡◌, ◌≤◌, ◌<◌, ◌^◌, length};
ghost use Rattle.ere_automaton.specs.Automaton.{Ranged};
ghost use Rattle.ere_seek.specs.Starts.{may_begin, Passed, Candidate};

use crate::states;
use ere_automaton::{ACCEPTED, BLOCK, FIRST, LATER, SKIPS};

// Tells whether a match may begin with the byte.
fn begins(d: &[u16], b: u8) -> bool
    requires { Ranged d.now }
    ensures { result ≡ may_begin d.now b }
{
    states::next(d, d[LATER] as usize, b) != d[ACCEPTED] as usize
}

// Returns the first place from `from` on whose byte may begin a match.
fn beginning(d: &[u16], x: &[u8], from: usize) -> usize
    requires { (Ranged d.now) × (from ≤ length x.now) }
    ensures { Passed d.now x.now from result }
{
    for i in from..x.len() {
        if begins(d, x[i]) {
            return i;
        }
    }
    x.len()
}

// Returns the first place from `from` on where a match may start, but the text's start if it differs.
pub fn candidate(d: &[u16], x: &[u8], from: usize, first: bool) -> usize
    requires { (Ranged d.now) × (length x.now < 2 ^ 63) × (from ≤ length x.now) }
    ensures { Candidate d.now x.now from first result }
{
    if first & (d[FIRST] != d[LATER]) {
        return from;
    }
    let mut s = from;
    if (d[SKIPS] != 0) & (from + BLOCK < x.len()) {
        s = ere_automaton::next_block(d, x, s);
    }
    beginning(d, x, s)
}
