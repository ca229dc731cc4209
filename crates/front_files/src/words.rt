// The words of the command line.
ghost use Rattle.std.specs.Prelude.{◌≤◌, length};
ghost use Rattle.front_files.specs.Filling.{FilledTo};

use std::env::{Env, FillError};

// Returns how many words the command line has, the program's own with them.
pub fn word_count(rt: &impl Env) -> usize {
    for n in 0..usize::MAX {
        if let Err(FillError::NotPresent) = rt.arg(n, &mut []) {
            return n;
        }
    }
    usize::MAX
}

// Reads word i of the command line to after the first `at` bytes, with a NUL after it. Returns how many bytes are filled
// then, or `None` where the word does not fit.
fn read_word(rt: &impl Env, room: &mut [u8], at: usize, i: usize) -> Option<usize>
    requires { at ≤ length room.old }
    ensures { FilledTo at (length room.old) result }
{
    let n = rt.arg(i, &mut room[at..]).ok()?;
    let end = at + n;
    if room.len() <= end {
        return None;
    }
    room[end] = 0;
    Some(end + 1)
}

// Reads the words of the command line after the program's own, each with a NUL after it. Returns how many bytes they
// are, or `None` where they do not fit.
pub fn read_words(rt: &impl Env, room: &mut [u8]) -> Option<usize>
    ensures { FilledTo 0 (length room.old) result }
{
    let mut at: usize = 0;
    for i in 1..word_count(rt) {
        at = read_word(rt, room, at, i)?;
    }
    Some(at)
}
