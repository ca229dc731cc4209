// Operations on the values of operands.
//
// Payload: the operation by its code in document 01 (28: whether a value is true), the outcome, and four values: what
// is in the first slot afterwards, which is what was there where the outcome is not 0, and what is in three slots
// before, of which the operation takes the first ones.
use crate::slots;
use crate::slots::ROOM;

// Replaces the value of slot 0 by whether it is true.
fn truth(work: &mut [u8; ROOM]) -> u64 {
    let t = run_values::is_true(work, 0);
    if t.stop != 0 {
        return t.stop;
    }
    run_values::set_truth(work, 0, t.holds);
    0
}

// Performs the operation with a code on the slots from 0 on. No outcome is 255.
fn perform(work: &mut [u8; ROOM], code: u8) -> u64 {
    match code {
        7..=11 => run_values::calculate(work, 0, vectors_frames::wide(code)),
        12 => run_values::negate(work, 0),
        13 => run_values::to_number(work, 0),
        14 => run_values::negation(work, 0),
        15..=20 => run_comparison::compare(work, 0, vectors_frames::wide(code)),
        21 => run_texts::join(work, 0),
        24 => run_texts::length_of(work, 0),
        25 => run_texts::index(work, 0),
        26 => run_texts::substr(work, 0),
        28 => truth(work),
        _ => 255,
    }
}

// Sets three slots.
fn loads(work: &mut [u8; ROOM], p: &[u8]) -> bool {
    slots::set(work, 0, slots::value(p, 1))
        && slots::set(work, 1, slots::value(p, 2))
        && slots::set(work, 2, slots::value(p, 3))
}

// Tells whether the first of them has what is expected, and the others what they had.
fn leaves(work: &[u8; ROOM], p: &[u8]) -> bool {
    slots::has(work, 0, slots::value(p, 0))
        && slots::has(work, 1, slots::value(p, 2))
        && slots::has(work, 2, slots::value(p, 3))
}

// Tells whether the case in a payload passes.
pub fn passes(p: &[u8]) -> bool {
    if p.len() < 2 {
        return false;
    }
    let mut work = [slots::BEFORE; ROOM];
    if !loads(&mut work, &p[2..]) {
        return false;
    }
    if perform(&mut work, p[0]) != vectors_frames::wide(p[1]) {
        return false;
    }
    leaves(&work, &p[2..])
}
