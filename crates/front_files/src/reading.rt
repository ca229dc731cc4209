// A file's bytes, to its end, after those that a room already has.
ghost use Rattle.std.specs.Prelude.{◌≡◌, ◌+◌, ◌≤◌, length, take, IfOk, IfSome};
ghost use Rattle.front_files.specs.Filling.{FilledTo};

use std::io::{Error, ErrorKind, Read, Result};

// Reads once, after the first `at` bytes. Returns how many bytes the read gave, or `None` where the file has ended. A
// call that a signal interrupts gives no bytes, and is made again.
fn read_once<R: Read>(file: &mut R, room: &mut [u8], at: usize) -> Result<Option<usize>>
    requires { at ≤ length room.old }
    ensures inside { IfOk result (λ o. IfSome o (λ n. at + n ≤ length room.old)) }
    ensures kept { take at room.new ≡ take at room.old }
{
    match file.read(&mut room[at..]) {
        Ok(0) => Ok(None),
        Ok(n) => Ok(Some(n)),
        Err(e) => {
            if e.kind() == ErrorKind::Interrupted {
                return Ok(Some(0));
            }
            Err(e)
        }
    }
}

// Reads until the file ends. Returns how many bytes of the room are filled then, or `None` where the file has more than
// fits. A room that is full is not enough: one byte more than the file has is asked for, so that the end is seen.
pub fn fill<R: Read>(file: &mut R, room: &mut [u8], from: usize) -> Result<Option<usize>>
    ensures { IfOk result (FilledTo from (length room.old))
        × (take from room.new ≡ take from room.old) }
{
    let size = room.len();
    let mut at = from;
    for _ in 0..u64::MAX {
        if size <= at {
            return Ok(None);
        }
        let Some(n) = read_once(file, room, at)? else {
            return Ok(Some(at));
        };
        at += n;
    }
    Err(Error::from(ErrorKind::TimedOut))
}
