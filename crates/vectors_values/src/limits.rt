// Sizes and outcome numbers.
//
// Payload, 10 bytes: the kind (0 a size, 1 an outcome, 2 a constant that another crate makes of a size), which of them,
// and its value, 8 bytes.
use edition::{Edition, Outcome};

// More than any number of the tables.
const NONE: u64 = u64::MAX;

// Returns a size of document 01, in its order.
fn size(which: u8) -> u64 {
    let l = Edition::limits();
    match which {
        0 => l.filter_text as u64,
        1 => l.text as u64,
        2 => l.record as u64,
        3 => l.fields as u64,
        4 => l.number,
        5 => l.users as u64,
        6 => l.constants as u64,
        7 => l.eres as u64,
        8 => l.instructions as u64,
        9 => l.depth as u64,
        10 => l.nesting as u64,
        11 => l.working_room as u64,
        12 => l.ere_bytes as u64,
        13 => l.ere_places as u64,
        14 => l.ere_groups as u64,
        _ => NONE,
    }
}

// Returns the outcome number in a row of document 01's table.
fn outcome(row: usize) -> u64 {
    let numbers = Outcome::numbers();
    if row < 20 { numbers[row] } else { NONE }
}

// Returns what 0, the greatest number or the length of the longest number's text is.
fn made(which: u8) -> u64 {
    match which {
        0 => number::ZERO,
        1 => number::TOP,
        2 => decimals::DECIMAL_BYTES as u64,
        _ => NONE,
    }
}

// Returns the value that a kind and a number of the payload name.
fn value(kind: u8, which: u8) -> u64 {
    match kind {
        0 => size(which),
        1 => outcome(which as usize),
        2 => made(which),
        _ => NONE,
    }
}

// Tells whether the case in a payload passes.
pub fn passes(p: &[u8]) -> bool {
    if p.len() != 10 {
        return false;
    }
    let got = value(p[0], p[1]);
    got != NONE && got == vectors_frames::word(p, 2)
}
