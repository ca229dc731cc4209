// The program with rooms of its own, for the gate. Such a program has no exit status, so the status is printed last.
#![tactic(auto)]

ghost use Rattle.std.specs.Prelude.{◌≡◌, length};
ghost use Rattle.edition.specs.Limits.{working_room};

use edition::Edition;
use std::io::Result;

// Returns a working room.
fn working_room() -> [u8; Edition::WORKING_ROOM]
    ensures { working_room ≡ length result }
{
    [0; Edition::WORKING_ROOM]
}

// Returns a room for the content of an image.
fn content_room() -> [u64; 1024]
    ensures { 1024 ≡ length result }
{
    [0; 1024]
}

// Bytes of the rooms for texts and lines.
const TEXTS: usize = 65536;

// Returns a room for texts or lines.
fn text_room() -> [u8; TEXTS] {
    [0; TEXTS]
}

// Does what the words of `args` ask for, and prints the status.
fn main(rt: HostRuntime) -> Result<()> {
    let mut words = text_room();
    let mut text = text_room();
    let mut image = text_room();
    let mut content = content_room();
    let mut lines = text_room();
    let mut output = text_room();
    let mut work = working_room();
    let status = flowawk_tool::tool(
        &rt,
        &mut words,
        &mut text,
        &mut image,
        &mut content,
        &mut lines,
        &mut output,
        &mut work,
    );
    println!(rt; "status {status}")
}
