// The operators on numbers.
//
// Payload, 26 bytes: the operator by its code in document 01 (7 to 11: + - * / %, 12: negation, which looks at the left
// operand alone), the left and the right operand, 8 bytes each, the outcome, and the result, 8 bytes, 0 where the
// outcome is not 0.
use edition::Outcome;
use number::Stop;

// Tells whether what an operator gives has the outcome and the result that are expected.
fn gives(c: Result<u64, Stop>, outcome: u64, res: u64) -> bool {
    match c {
        Ok(w) => outcome == Outcome::DONE && res == w,
        Err(e) => outcome == e.outcome() && res == 0,
    }
}

// Tells the same of the operator with a code, where the operands are numbers and there is such an operator.
fn computes(code: u8, a: u64, b: u64, outcome: u64, res: u64) -> bool {
    if number::TOP < a {
        return false;
    }
    if number::TOP < b {
        return false;
    }
    match code {
        7 => gives(number::add(a, b), outcome, res),
        8 => gives(number::subtract(a, b), outcome, res),
        9 => gives(number::multiply(a, b), outcome, res),
        10 => gives(number::divide(a, b), outcome, res),
        11 => gives(number::remainder(a, b), outcome, res),
        12 => gives(number::negate(a), outcome, res),
        _ => false,
    }
}

// Tells whether the case in a payload passes.
pub fn passes(p: &[u8]) -> bool {
    if p.len() != 26 {
        return false;
    }
    let outcome = vectors_frames::wide(p[17]);
    computes(
        p[0],
        vectors_frames::word(p, 1),
        vectors_frames::word(p, 9),
        outcome,
        vectors_frames::word(p, 18),
    )
}
