// Rooms that get more bytes where they are too small.
ghost use Rattle.std.specs.Prelude.{◌≡◌, ◌≤◌, ◌<◌, IsTrue, IfOk, length, take, vec_len};
ghost use Rattle.front_files.specs.Filling.{FilledTo};

use crate::{joining, reading};
use std::alloc::Global;
use std::io::{Error, ErrorKind, Read, Result};

// Bytes that a room gets first.
const FIRST: usize = 65536;

// How many times the bytes that it has a room gets.
const TIMES: usize = 4;

// A room of its own, and the most bytes that it may get.
#[derive(Drop)]
pub struct Growing {
    pub bytes: Vec<u8>,
    pub most: usize,
}

impl Growing {
    // Returns a room of no bytes.
    pub fn new(alloc: Global, most: usize) -> Growing
        ensures { (vec_len result.bytes ≡ 0) × (result.most ≡ most) }
    {
        Growing {
            bytes: Vec::new(alloc),
            most,
        }
    }

    // Returns how many bytes a room of so many gets next.
    fn next(size: usize, most: usize) -> usize
        requires { size < most }
        ensures { (size < result) × (result ≤ most) }
    {
        if size == 0 {
            return most.min(FIRST);
        }
        if most / TIMES <= size {
            return most;
        }
        size * TIMES
    }

    // Gives the room more bytes, behind those that it has. False where it has the most, or there is no memory.
    pub fn grow(&mut self) -> bool
        ensures more { IsTrue result → length self.old.bytes.items < length self.new.bytes.items }
        ensures least { length self.old.bytes.items ≤ length self.new.bytes.items }
        ensures kept { take (length self.old.bytes.items) self.new.bytes.items ≡ self.old.bytes.items }
    {
        let size = self.bytes.len();
        if self.most <= size {
            return false;
        }
        let next = Growing::next(size, self.most);
        self.bytes.resize(next, 0).is_ok()
    }
}

// Reads until the file ends, after the first `from` bytes of a room, which gets more bytes where the file has more than
// fits. Returns how many bytes of the room are filled then, or `None` where it can get no more.
pub fn fill_growing<R: Read>(file: &mut R, room: &mut Growing, from: usize) -> Result<Option<usize>>
    ensures filled { IfOk result (FilledTo from (length room.new.bytes.items)) }
    ensures kept { from ≤ length room.old.bytes.items
        → take from room.new.bytes.items ≡ take from room.old.bytes.items }
{
    let mut at = from;
    for _ in 0..u64::MAX {
        let size = room.bytes.len();
        if let Some(n) = reading::fill(file, room.bytes.as_mut_slice(), at)? {
            return Ok(Some(n));
        }
        if !room.grow() {
            return Ok(None);
        }
        at = at.max(size);
    }
    Err(Error::from(ErrorKind::TimedOut))
}

// Ends the first `at` bytes of a room with a newline, as `separate` does. The room gets more bytes where it has none for
// the newline; `None` where it can get no more.
pub fn separate_growing(room: &mut Growing, at: usize) -> Option<usize>
    requires { at ≤ length room.old.bytes.items }
{
    if room.bytes.len() <= at && !room.grow() {
        return None;
    }
    joining::separate(room.bytes.as_mut_slice(), at)
}
