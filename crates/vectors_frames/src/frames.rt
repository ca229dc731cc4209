// The frames of a file: a payload's length in two bytes, the low byte first, and the payload.
//
// No contract can say which bytes a read gives, so those here speak of sizes alone.
ghost use Rattle.std.specs.Prelude.{◌≤◌, length, IfOk, IfSome};

use std::io::Read;

// The end of the file cuts a frame, or the frame is longer than the room.
#[derive(Clone, Copy)]
pub struct Cut;

// Reads until a room is full, the file ends or a read fails. Returns how many bytes were put at the front.
fn read_full<R: Read>(file: &mut R, room: &mut [u8]) -> usize
    ensures { result ≤ length room.old }
{
    let mut at: usize = 0;
    while at < room.len() {
        match file.read(&mut room[at..]) {
            Ok(0) => return at,
            Ok(n) => at += n,
            Err(_) => return at,
        }
    }
    at
}

// Reads a payload of n bytes into the room.
fn payload<R: Read>(file: &mut R, room: &mut [u8], n: usize) -> Result<usize, Cut>
    ensures { IfOk result (λ n. n ≤ length room.old) }
{
    if room.len() < n {
        return Err(Cut);
    }
    if read_full(file, &mut room[0..n]) < n {
        return Err(Cut);
    }
    Ok(n)
}

// Reads the next frame, and returns the size of its payload, which is at the front of the room, or `None` at the end of
// the file. No payload is longer than a room of 65536 bytes.
pub fn next<R: Read>(file: &mut R, room: &mut [u8]) -> Result<Option<usize>, Cut>
    ensures { IfOk result (λ o. IfSome o (λ n. n ≤ length room.old)) }
{
    let mut head = [0u8; 2];
    let got = read_full(file, &mut head);
    if got == 0 {
        return Ok(None);
    }
    if got < 2 {
        return Err(Cut);
    }
    let n = payload(file, room, crate::payload::short(&head, 0))?;
    Ok(Some(n))
}
