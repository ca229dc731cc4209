// What the program writes: its results to standard output, and what it says to standard error.
ghost use Rattle.std.specs.Prelude.{◌+◌, ◌≤◌, ◌<◌, ◌^◌, length};

use std::io::{Error, Write};

// Bytes of a file's name, a word or a reason that are said: more would not fit a message.
const NAME: usize = 4096;

// Bytes of the room of a message.
const MESSAGE: usize = 65536;

// Bytes of the room of the system's reason, which is shorter.
const REASON: usize = 512;

// Writes a text to standard error.
pub fn say(rt: &HostRuntime, text: &[u8]) {
    let _ = front_files::write_whole(&mut rt.stderr(), text);
}

// Returns where a reason ends: the number of the system's error, in parentheses, is left out.
fn reason_end(reason: &[u8]) -> usize
    ensures { result ≤ length reason.now }
{
    for end in 0..reason.len() {
        if reason[end..].starts_with(b" (os error ") {
            return end;
        }
    }
    reason.len()
}

// Writes why a call failed, in the system's words, from byte k on; returns the index after it.
fn put_reason(room: &mut [u8], k: usize, error: &Error) -> usize
    requires { k < 2 ^ 32 }
    ensures { result ≤ k + 512 }
{
    let mut reason = [0u8; REASON];
    let mut rest = reason.as_mut_slice();
    let _ = write!(rest, "{error}");
    let size = REASON.saturating_sub(rest.len());
    let end = reason_end(&reason[0..size]);
    front_lines::put_text(room, k, &reason[0..end])
}

// Says why a call of the system failed, in the system's words, and on what. A name that is too long is left out.
pub fn fail(rt: &HostRuntime, name: &[u8], error: &Error) {
    let mut room = [0u8; MESSAGE];
    let mut n = front_lines::put_text(&mut room, 0, b"flowawk");
    if name.len() <= NAME {
        let a = front_lines::put_text(&mut room, n, b": ");
        n = front_lines::put_text(&mut room, a, name);
    }
    let b = front_lines::put_text(&mut room, n, b": ");
    let c = put_reason(&mut room, b, error);
    let d = front_lines::put_text(&mut room, c, b"\n");
    if d <= MESSAGE {
        say(rt, &room[0..d]);
    }
}

// Writes bytes to standard output, all of them. False where a call failed, which is said.
pub fn print(rt: &HostRuntime, bytes: &[u8]) -> bool {
    match front_files::write_whole(&mut rt.stdout(), bytes) {
        Ok(()) => true,
        Err(error) => {
            fail(rt, b"standard output", &error);
            false
        }
    }
}

// Says why a filter is refused: the place, the outcome, the line and a caret under the place.
pub fn refuse_filter(rt: &HostRuntime, name: &[u8], text: &[u8], place: usize, outcome: u64) {
    if NAME < name.len() {
        return;
    }
    if 4294967295 < text.len() {
        return;
    }
    if text.len() < place {
        return;
    }
    let mut room = [0u8; MESSAGE];
    let n = front_messages::put_refusal(&mut room, name, text, place, outcome);
    if n <= MESSAGE {
        say(rt, &room[0..n]);
    }
}

// Says why an image is refused.
pub fn refuse_image(rt: &HostRuntime, name: &[u8], outcome: u64) {
    if NAME < name.len() {
        return;
    }
    let mut room = [0u8; MESSAGE];
    let n = front_messages::put_image_refusal(&mut room, name, outcome);
    if n <= MESSAGE {
        say(rt, &room[0..n]);
    }
}

// Says how a run ended, with its counts.
pub fn summarize(rt: &HostRuntime, outcome: u64, records: u64, steps: u64, bytes: u64) {
    let mut room = [0u8; MESSAGE];
    let n = front_messages::put_summary(&mut room, outcome, records, steps, bytes);
    if n <= MESSAGE {
        say(rt, &room[0..n]);
    }
}

// Says that input does not fit its room, and how many bytes the room has.
pub fn refuse_size(rt: &HostRuntime, size: usize) {
    let mut room = [0u8; MESSAGE];
    let a = front_lines::put_text(
        &mut room,
        0,
        b"flowawk: the input does not fit the room of ",
    );
    let b = front_lines::put_decimal(&mut room, a, size as u64);
    let n = front_lines::put_text(&mut room, b, b" bytes\n");
    if n <= MESSAGE {
        say(rt, &room[0..n]);
    }
}

// Says what is wrong with a word of the command line.
pub fn refuse_word(rt: &HostRuntime, word: &[u8], reason: &[u8]) {
    if NAME < word.len() {
        return;
    }
    if NAME < reason.len() {
        return;
    }
    let mut room = [0u8; MESSAGE];
    let a = front_lines::put_text(&mut room, 0, b"flowawk: ");
    let b = front_lines::put_text(&mut room, a, word);
    let c = front_lines::put_text(&mut room, b, reason);
    if c <= MESSAGE {
        say(rt, &room[0..c]);
    }
}
