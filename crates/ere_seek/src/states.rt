// The states of an automaton.
ghost use Rattle.std.specs.Prelude.{◌≡◌, false, cond, ◌+◌, ◌<◌, eqb};
ghost use Rattle.ere_automaton.specs.Layout.{State, pairs_word, next_in, pair_in, end_word};
ghost use Rattle.ere_automaton.specs.Automaton.{Ranged};
ghost use Rattle.ere_automaton.specs.Scan.{Ready};
ghost use Rattle.ere_seek.specs.Starts.{entry_state};
ghost use Rattle.ere_seek.specs.One.{accepts};

use ere_automaton::{CLASSES, FIRST, LATER};

// Returns the state in which a match starts.
pub fn entered(d: &[u16], first: bool) -> usize
    requires { Ranged d.now }
    ensures { result ≡ entry_state d.now first }
{
    if first {
        return d[FIRST] as usize;
    }
    d[LATER] as usize
}

// Returns the state after a byte.
pub fn next(d: &[u16], s: usize, b: u8) -> usize
    requires { (Ranged d.now) × (State d.now s) }
    ensures { result ≡ next_in d.now s b }
{
    d[s + d[CLASSES + b as usize] as usize] as usize
}

// Returns the state after two bytes. The index of the word in its row is made in 32 bits, so that the state is added to
// it last: a chain of states then waits for one sum and one word a step.
pub fn pair(d: &[u16], k: usize, s: usize, b: u8, c: u8) -> usize
    requires { (Ready d.now k s) × (eqb (pairs_word d.now) 0 ≡ false) }
    ensures { result ≡ pair_in d.now s b c }
{
    let y = d[CLASSES + b as usize] as u32;
    let z = d[CLASSES + c as usize] as u32;
    let n = k as u32;
    d[(y * n + z + n + 1) as usize + s] as usize
}

// Returns the accept bits of a state.
pub fn accept_bits(d: &[u16], k: usize, s: usize) -> u16
    requires { Ready d.now k s }
    ensures { result ≡ end_word d.now s }
{
    d[s + k]
}

// Tells whether a match ends, by the accept bits of a state.
pub fn accepted(bits: u16, last: bool) -> bool
    ensures { result ≡ accepts bits last }
{
    if last {
        return 2 <= bits;
    }
    bits % 2 == 1
}

// Returns i, or what was kept.
pub fn either(yes: bool, i: usize, kept: usize) -> usize
    ensures { result ≡ cond yes i kept }
{
    if yes {
        return i;
    }
    kept
}
