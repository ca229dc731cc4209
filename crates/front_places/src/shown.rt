// The part of a line that is shown around a place.
ghost use Rattle.std.specs.Prelude.{◌≡◌, ◌+◌, ◌*◌, ◌-◌, ◌≤◌, ◌<◌, ◌^◌, length};
ghost use Rattle.front_places.specs.Shown.{COLUMNS, BEFORE_CARET, prints as shown_prints, width_of, columns_of, left_out, fitting, omitted};
ghost use Rattle.front_places.specs.Window.{Shows};

use crate::place;

// The columns that a line is shown in, and those before the caret in a line that is cut.
const COLUMNS: usize = 77;

const BEFORE_CARET: usize = 38;

// The bytes of a text that are shown around a place: from `from` to the place, and from it to `to`.
#[derive(Clone, Copy)]
pub struct Window {
    pub from: usize,
    pub to: usize,
}

// Tells whether a byte is shown as it is: a tab, or one that prints.
pub fn prints(b: u8) -> bool
    ensures { result ≡ shown_prints b }
{
    b == b'\t' || (b' ' <= b && b <= b'~')
}

// Returns the columns that a byte takes.
pub fn width(b: u8) -> usize
    ensures { (result ≡ width_of b) × (result ≤ 4) }
{
    if prints(b) { 1 } else { 4 }
}

// Counts the columns that a list of bytes takes.
pub fn columns(s: &[u8]) -> usize
    requires { length s.now < 2 ^ 32 }
    ensures { (result ≡ columns_of s.now) × (result ≤ 4 * length s.now) }
{
    let mut n: usize = 0;
    for b in s {
        n += width(*b);
    }
    n
}

// Counts the bytes to leave out at the front of s, which takes `all` columns, so that the others take at most `most`.
fn left_out(s: &[u8], all: usize, most: usize) -> usize
    requires { all ≡ columns_of s.now }
    ensures { (result ≡ left_out most s.now) × (result ≤ length s.now) }
{
    let mut rest = all;
    for (i, b) in s.iter().enumerate() {
        if rest <= most {
            return i;
        }
        rest -= width(*b);
    }
    s.len()
}

// Counts the bytes at the front of s that fit `most` columns.
fn fit(s: &[u8], most: usize) -> usize
    ensures { (result ≡ fitting most s.now) × (result ≤ length s.now) }
{
    let mut rest = most;
    for (i, b) in s.iter().enumerate() {
        let w = width(*b);
        if rest < w {
            return i;
        }
        rest -= w;
    }
    s.len()
}

// Counts the bytes that are left out at a line's front, which is cut in two by a place.
fn omit(before: &[u8], behind: &[u8]) -> usize
    requires { (length before.now < 2 ^ 32) × (length behind.now < 2 ^ 32) }
    ensures { (result ≡ omitted before.now behind.now) × (result ≤ length before.now) }
{
    let all = columns(before);
    if all + columns(behind) <= COLUMNS {
        return 0;
    }
    left_out(before, all, BEFORE_CARET)
}

// Counts the bytes that are shown from a place on, in the columns that what is shown before it leaves.
fn fit_behind(before: &[u8], behind: &[u8]) -> usize
    requires { length before.now < 2 ^ 32 }
    ensures { (result ≡ fitting (COLUMNS - columns_of before.now) behind.now)
        × (result ≤ length behind.now) }
{
    fit(behind, COLUMNS.saturating_sub(columns(before)))
}

// Returns the part of a text that is shown around a place.
pub fn shown_around(text: &[u8], place: usize) -> Window
    requires { (place ≤ length text.now) × (length text.now < 2 ^ 32) }
    ensures { Shows text.now place result }
{
    let start = place - place::since_newline(&text[0..place]);
    let end = place + buffer::first_byte(&text[place..], b'\n');
    let from = start + omit(&text[start..place], &text[place..end]);
    let fits = fit_behind(&text[from..place], &text[place..end]);
    Window {
        from,
        to: place + fits,
    }
}
