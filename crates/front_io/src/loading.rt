// Files by name, read to their ends; `-` is standard input.
//
// A reading returns how many bytes of the room are filled then, or `None` where the files have more than fits; the error
// is the status that the program ends with, and what failed is said.
ghost use Rattle.std.specs.Prelude.{length};
ghost use Rattle.front_io.specs.Loading.{Loads};

use crate::saying;
use std::fs::File;
use std::io::{Error, Read};
use std::{fs, io, str};

// The system's error for bytes that are no text.
const EILSEQ: i32 = 84;

// Returns a file's name as a path, which is text.
pub fn path(name: &[u8]) -> io::Result<&str> {
    match str::from_utf8(name) {
        Ok(text) => Ok(text),
        Err(_) => Err(Error::from_raw_os_error(EILSEQ)),
    }
}

// Opens a file for reading.
pub fn open(rt: &HostRuntime, name: &[u8]) -> io::Result<File> {
    let path = path(name)?;
    fs::open(rt, path)
}

// Reads a file to its end, after the first `from` bytes of a room. What fails is said.
fn read<R: Read>(
    rt: &HostRuntime,
    file: &mut R,
    name: &[u8],
    room: &mut [u8],
    from: usize,
) -> Result<Option<usize>, u64>
    ensures { Loads (length room.old) result }
{
    match front_files::fill(file, room, from) {
        Ok(filled) => Ok(filled),
        Err(error) => {
            saying::fail(rt, name, &error);
            Err(front_choices::IO_FAILED)
        }
    }
}

// Reads a file to its end, after the first `from` bytes of a room. What fails is said.
pub fn load(
    rt: &HostRuntime,
    name: &[u8],
    room: &mut [u8],
    from: usize,
) -> Result<Option<usize>, u64>
    ensures { Loads (length room.old) result }
{
    if buffer::equal(name, b"-") {
        return read(rt, &mut rt.stdin(), name, room, from);
    }
    match open(rt, name) {
        Ok(mut file) => read(rt, &mut file, name, room, from),
        Err(error) => {
            saying::fail(rt, name, &error);
            Err(front_choices::NO_INPUT)
        }
    }
}

// Returns where word k of a block starts, and the block's length for 0 and where there are fewer words.
pub fn first_place(block: &[u8], k: usize) -> usize {
    if k == 0 {
        return block.len();
    }
    let w = front_words::find_word(block, k - 1);
    w.start
}

// Reads one more file after the first `at` bytes of a room, from a new line on.
fn join(rt: &HostRuntime, name: &[u8], room: &mut [u8], at: usize) -> Result<Option<usize>, u64>
    ensures { Loads (length room.old) result }
{
    if room.len() < at {
        return Ok(None);
    }
    let Some(from) = front_files::separate(room, at) else {
        return Ok(None);
    };
    load(rt, name, room, from)
}

// Reads the files that the words of a block from number `first` on name, joined; standard input where there are none.
pub fn load_lines(
    rt: &HostRuntime,
    block: &[u8],
    first: usize,
    room: &mut [u8],
) -> Result<Option<usize>, u64>
    ensures { Loads (length room.old) result }
{
    let mut place = first_place(block, first);
    if block.len() <= place {
        return load(rt, b"-", room, 0);
    }
    let mut at: usize = 0;
    while place < block.len() {
        let w = front_words::word_at(block, place);
        let end = w.end;
        let Some(n) = join(rt, &block[place..end], room, at)? else {
            return Ok(None);
        };
        at = n;
        place = w.next;
    }
    Ok(Some(at))
}
