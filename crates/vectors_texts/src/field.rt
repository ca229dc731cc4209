// Field k of a record.
//
// Payload: the outcome and the count of the split, as in the group `split`, k, 8 bytes, the field's start from 0 and
// its length, 2 bytes each, the separator's length, 2 bytes, the separator and the record.
use crate::split;
use fields::{Located, SplitError};

// Tells whether a field's span is as the payload says.
fn is_span(p: &[u8], start: usize, size: usize) -> bool {
    start == vectors_frames::short(p, 11) && size == vectors_frames::short(p, 13)
}

// Tells whether a field's span, and what the split answers beside it, are as the payload says. A refused record has no
// span here.
fn spans(p: &[u8], f: Result<Located, SplitError>) -> bool {
    match f {
        Ok(f) => is_span(p, f.start, f.size) && split::answers(p, Ok(f.count)),
        Err(e) => split::answers(p, Err(e)),
    }
}

// Tells whether the span that C gets is as the payload says: of a refused record, the empty part at its end.
fn finds(p: &[u8], record: &[u8], separator: &[u8], k: u64) -> bool {
    let mut start: u64 = 0;
    let mut length: u64 = 0;
    capi_texts::find_field(record, separator, k, &mut start, &mut length);
    is_span(p, start as usize, length as usize)
}

// Tells whether the field is that part of the record, byte for byte.
fn is_part(p: &[u8], record: &[u8], separator: &[u8], k: usize) -> bool {
    let start = vectors_frames::short(p, 11);
    let size = vectors_frames::short(p, 13);
    if record.len() < start {
        return false;
    }
    if record.len() - start < size {
        return false;
    }
    let end = start + size;
    check::same(fields::field(record, separator, k), &record[start..end])
}

// Tells whether the three entries answer as the payload says.
fn answers(p: &[u8], separator: &[u8], record: &[u8]) -> bool {
    let k = vectors_frames::word(p, 3);
    spans(p, fields::locate(record, separator, k as usize))
        && finds(p, record, separator, k)
        && is_part(p, record, separator, k as usize)
}

// Tells whether the case in a payload passes.
pub fn passes(p: &[u8]) -> bool {
    if p.len() < 17 {
        return false;
    }
    let n = vectors_frames::short(p, 15);
    if p.len() - 17 < n {
        return false;
    }
    let middle = 17 + n;
    answers(p, &p[17..middle], &p[middle..])
}
