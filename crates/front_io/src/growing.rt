// Files by name, read to their ends into a room that gets more bytes where they are more.
ghost use Rattle.std.specs.Prelude.{length};
ghost use Rattle.front_io.specs.Loading.{Loads};

use crate::{loading, saying};
use front_files::Growing;
use std::io::Read;

// Reads a file to its end, after the first `from` bytes of a room. What fails is said.
fn read<R: Read>(
    rt: &HostRuntime,
    file: &mut R,
    name: &[u8],
    room: &mut Growing,
    from: usize,
) -> Result<Option<usize>, u64>
    ensures { Loads (length room.new.bytes.items) result }
{
    match front_files::fill_growing(file, room, from) {
        Ok(filled) => Ok(filled),
        Err(error) => {
            saying::fail(rt, name, &error);
            Err(front_choices::IO_FAILED)
        }
    }
}

// Reads a file to its end, after the first `from` bytes of a room. What fails is said.
fn load(
    rt: &HostRuntime,
    name: &[u8],
    room: &mut Growing,
    from: usize,
) -> Result<Option<usize>, u64>
    ensures { Loads (length room.new.bytes.items) result }
{
    if buffer::equal(name, b"-") {
        return read(rt, &mut rt.stdin(), name, room, from);
    }
    match loading::open(rt, name) {
        Ok(mut file) => read(rt, &mut file, name, room, from),
        Err(error) => {
            saying::fail(rt, name, &error);
            Err(front_choices::NO_INPUT)
        }
    }
}

// Reads one more file after the first `at` bytes of a room, from a new line on.
fn join(rt: &HostRuntime, name: &[u8], room: &mut Growing, at: usize) -> Result<Option<usize>, u64>
    ensures { Loads (length room.new.bytes.items) result }
{
    if room.bytes.len() < at {
        return Ok(None);
    }
    let Some(from) = front_files::separate_growing(room, at) else {
        return Ok(None);
    };
    load(rt, name, room, from)
}

// Reads the files that the words of a block from number `first` on name, joined; standard input where there are none.
pub fn load_lines_growing(
    rt: &HostRuntime,
    block: &[u8],
    first: usize,
    room: &mut Growing,
) -> Result<Option<usize>, u64>
    ensures { Loads (length room.new.bytes.items) result }
{
    let mut place = loading::first_place(block, first);
    if block.len() <= place {
        return load(rt, b"-", room, 0);
    }
    let mut at: usize = 0;
    while place < block.len() {
        let w = front_words::word_at(block, place);
        let end = w.end;
        let Some(n) = join(rt, &block[place..end], room, at)? else {
            return Ok(None);
        };
        at = n;
        place = w.next;
    }
    Ok(Some(at))
}
