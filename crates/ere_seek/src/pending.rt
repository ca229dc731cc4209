// All starts before a place: where nothing of them is pending.
ghost use Rattle.std.specs.Prelude.{◌≡◌, false, not, ◌-◌, ◌≤◌, ◌<◌, ◌^◌, length, eqb};
ghost use Rattle.ere_automaton.specs.Layout.{pairs_word};
ghost use Rattle.ere_automaton.specs.Automaton.{Ranged};
ghost use Rattle.ere_seek.specs.Pending.{RanBy, Block, Part, Cleared};

use crate::states;
use ere_automaton::{ACCEPTED, BLOCK, CLASS_COUNT, LATER, PAIRS, SKIPS};

// A state, and the last place where nothing was pending. What goes on with it here and what goes on with a state alone
// in `ere_automaton` are functions of their own: `RanBy` tells of both parts, and a search that asks only whether there
// is a match keeps no place.
#[derive(Drop)]
struct Fresh {
    state: usize,
    seen: usize,
}

// Goes on by 16 bytes, two at a time.
fn pairs_seen(d: &[u16], k: usize, x: &[u8], i: usize, from: Fresh, later: usize) -> Fresh
    requires { (Block d.now k x.now i from.state later) × (eqb (pairs_word d.now) 0 ≡ false) }
    ensures { RanBy d.now x.now i 16 from result }
{
    let mut s = from.state;
    let mut f = from.seen;
    for j in 0..BLOCK / 2 {
        f = states::either(s == later, i + 2 * j, f);
        s = ere_automaton::pair(d, k, s, x[i + 2 * j], x[i + 2 * j + 1]);
    }
    Fresh { state: s, seen: f }
}

// Goes on by the bytes from `start` to `end`.
fn bytes_seen(d: &[u16], x: &[u8], start: usize, end: usize, from: Fresh, later: usize) -> Fresh
    requires { Part d.now x.now start end from.state later }
    ensures { RanBy d.now x.now start (end - start) from result }
{
    let mut s = from.state;
    let mut f = from.seen;
    for i in start..end {
        f = states::either(s == later, i, f);
        s = states::next(d, s, x[i]);
    }
    Fresh { state: s, seen: f }
}

// Goes on by 16 bytes.
fn block_seen(
    d: &[u16],
    k: usize,
    pairs: bool,
    x: &[u8],
    i: usize,
    from: Fresh,
    later: usize,
) -> Fresh
    requires { (Block d.now k x.now i from.state later) × («pairs» ≡ not (eqb (pairs_word d.now) 0)) }
    ensures { RanBy d.now x.now i 16 from result }
{
    if pairs {
        return pairs_seen(d, k, x, i, from, later);
    }
    bytes_seen(d, x, i, i + BLOCK, from, later)
}

// Returns a place before which no nonempty match starts from s on, or one more than the length if there is none at all.
// No `for`: i goes on to where `next_block` says.
pub fn first_start(d: &[u16], x: &[u8], s: usize, first: bool) -> usize
    requires { (Ranged d.now) × (length x.now < 2 ^ 63) × (s ≤ length x.now) }
    ensures { Cleared d.now x.now s first result }
{
    let k = d[CLASS_COUNT] as usize;
    let later = d[LATER] as usize;
    let accepted = d[ACCEPTED] as usize;
    let pairs = d[PAIRS] != 0;
    let skips = d[SKIPS] != 0;
    let mut f = Fresh {
        state: states::entered(d, first),
        seen: s,
    };
    let mut i = s;
    while i + BLOCK < x.len() {
        if skips && f.state == later {
            i = ere_automaton::next_block(d, x, i);
            if x.len() <= i + BLOCK {
                break;
            }
        }
        f = block_seen(d, k, pairs, x, i, f, later);
        if f.state == accepted {
            return f.seen;
        }
        i += BLOCK;
    }
    f = bytes_seen(d, x, i, x.len(), f, later);
    let q = f.state;
    if states::accept_bits(d, k, q) != 0 {
        return f.seen;
    }
    x.len() + 1
}
