// A line as it is shown, and the caret under a place of it.
ghost use Rattle.std.specs.Prelude.{◌+◌, ◌*◌, ◌≤◌, ◌<◌, ◌^◌, length};
ghost use Rattle.front_places.specs.Shown.{shown_byte, blank_byte, shown, blanks};
ghost use Rattle.front_lines.specs.Puts.{Puts};
ghost use Rattle.front_lines.specs.Messages.{caret_of};

use crate::put;

// Writes a byte as it is shown, from byte k on; returns the index after it.
fn put_shown_byte(room: &mut [u8], k: usize, b: u8) -> usize
    requires { k + 4 < 2 ^ 64 }
    ensures { Puts room.old k (shown_byte b) result room.new }
{
    if front_places::prints(b) {
        return put::put_text(room, k, &[b]);
    }
    put::put_text(
        room,
        k,
        &[b'\\', b'0' + b / 64, b'0' + b / 8 % 8, b'0' + b % 8],
    )
}

// Writes what is under a byte before the caret, from byte k on; returns the index after it.
fn put_blank_byte(room: &mut [u8], k: usize, b: u8) -> usize
    requires { k + 4 < 2 ^ 64 }
    ensures { Puts room.old k (blank_byte b) result room.new }
{
    if b == b'\t' {
        return put::put_text(room, k, &[b]);
    }
    if front_places::prints(b) {
        return put::put_text(room, k, b" ");
    }
    put::put_text(room, k, b"    ")
}

// Writes bytes as they are shown, from byte k on; returns the index after them.
fn put_shown(room: &mut [u8], k: usize, s: &[u8]) -> usize
    requires { k + (4 * length s.now + 4) < 2 ^ 64 }
    ensures { Puts room.old k (shown s.now) result room.new
        × (result ≤ k + 4 * length s.now) }
{
    let mut n = k;
    for b in s {
        n = put_shown_byte(room, n, *b);
    }
    n
}

// Writes what is under bytes before the caret, from byte k on; returns the index after it.
fn put_blanks(room: &mut [u8], k: usize, s: &[u8]) -> usize
    requires { k + (4 * length s.now + 4) < 2 ^ 64 }
    ensures { Puts room.old k (blanks s.now) result room.new
        × (result ≤ k + 4 * length s.now) }
{
    let mut n = k;
    for b in s {
        n = put_blank_byte(room, n, *b);
    }
    n
}

// Writes the line of a place, as much of it as is shown, and a caret under the place; returns the index after it.
pub fn put_caret(room: &mut [u8], k: usize, text: &[u8], place: usize) -> usize
    requires { (k < 2 ^ 32) × (place ≤ length text.now) × (length text.now < 2 ^ 32) }
    ensures { Puts room.old k (caret_of text.now place) result room.new }
{
    let w = front_places::shown_around(text, place);
    let from = w.from;
    let to = w.to;
    let line = put::put_text(room, k, b"  ");
    let middle = put_shown(room, line, &text[from..place]);
    let end = put_shown(room, middle, &text[place..to]);
    let under = put::put_text(room, end, b"\n  ");
    let caret = put_blanks(room, under, &text[from..place]);
    put::put_text(room, caret, b"^\n")
}
