// A record is read, fields of it are assigned, and one is got.
//
// Payload: the outcomes of the read, of two assignments and of getting a field, how many records were read before,
// 8 bytes, and eleven values: afterwards the record, the number of fields and the field, which is its number where the
// last outcome is not 0; before, FS, OFS, the record that is read, for each assignment the field's number and what it
// is assigned, and the number of the field that is got.
//
// Each step is tried, whether those before it stop or not. The record is empty at first.
ghost use Rattle.std.specs.Prelude.{◌+◌, ◌<◌};
ghost use Rattle.edition.specs.Limits.{operand_depth};
ghost use Rattle.separators.specs.Kinds.{Sized};
ghost use Rattle.run_room.specs.Room.{Lined};

use crate::slots;
use crate::slots::ROOM;
use edition::Edition;
use ere_table::TABLE_WORDS;
use run_input::Begun;
use run_room::Line;
use separators::Kind;

// The slots of the field, of the number of fields and of the record, after two for each assignment.
const FIELD: usize = 4;

const COUNT: usize = 5;

const RECORD: usize = 6;

// Sets the slots before.
fn loads(work: &mut [u8; ROOM], rest: &[u8]) -> bool {
    slots::set(work, run_separator::FS, slots::value(rest, 3))
        && slots::set(work, run_separator::OFS, slots::value(rest, 4))
        && slots::set(work, 0, slots::value(rest, 6))
        && slots::set(work, 1, slots::value(rest, 7))
        && slots::set(work, 2, slots::value(rest, 8))
        && slots::set(work, 3, slots::value(rest, 9))
        && slots::set(work, FIELD, slots::value(rest, 10))
}

// Tells whether an assignment has left its value, or its operands where it stops.
fn leaves(work: &[u8; ROOM], a: usize, outcome: u8, number: &[u8], assigned: &[u8]) -> bool
    requires { a + 1 < operand_depth }
{
    if outcome != 0 {
        return slots::has(work, a, number) && slots::has(work, a + 1, assigned);
    }
    slots::has(work, a, assigned) && slots::has(work, a + 1, assigned)
}

// Tells whether the assignments have left what they should.
fn both_leave(work: &[u8; ROOM], p: &[u8], rest: &[u8]) -> bool {
    let first = vectors_frames::byte(p, 1);
    let second = vectors_frames::byte(p, 2);
    leaves(work, 0, first, slots::value(rest, 6), slots::value(rest, 7))
        && leaves(
            work,
            2,
            second,
            slots::value(rest, 8),
            slots::value(rest, 9),
        )
}

// Tells whether the record, the number of fields and the field are as expected.
fn shows(work: &[u8; ROOM], rest: &[u8]) -> bool {
    slots::has(work, RECORD, slots::value(rest, 0))
        && slots::has(work, COUNT, slots::value(rest, 1))
        && slots::has(work, FIELD, slots::value(rest, 2))
}

// Tells whether one of the payload's outcomes is this one.
fn is_outcome(p: &[u8], at: usize, outcome: u64) -> bool {
    vectors_frames::wide(vectors_frames::byte(p, at)) == outcome
}

// Assigns the value of slot a + 1 to the field whose number is in slot a.
fn assign(
    work: &mut [u8; ROOM],
    t: &[u64; TABLE_WORDS],
    kind: Kind,
    edition: Edition,
    line: Line,
    a: usize,
) -> Begun
    requires { Lined line × Sized kind t.now × (a + 1 < operand_depth) }
    ensures { Lined result.line }
{
    run_join::store_field(work, t, kind, edition, line, a)
}

// Gets the field, the number of fields and the record; returns the outcome of the first.
fn get(
    work: &mut [u8; ROOM],
    t: &[u64; TABLE_WORDS],
    kind: Kind,
    edition: Edition,
    line: Line,
) -> u64
    requires { Lined line × Sized kind t.now }
{
    let got = run_records::load_field(work, t, kind, edition, line, FIELD);
    let all = run_records::get_count(work, t, kind, edition, got.line, COUNT);
    run_records::get_field(work, t, kind, edition, all, 0, RECORD);
    got.outcome
}

// Tries each step; returns whether the outcomes are as the payload says.
fn answers(
    work: &mut [u8; ROOM],
    t: &[u64; TABLE_WORDS],
    kind: Kind,
    edition: Edition,
    p: &[u8],
    record: &[u8],
) -> bool
    requires { Sized kind t.now }
{
    let empty = Line {
        side: 0,
        size: 0,
        known: 0,
        after: 1,
    };
    let count = vectors_frames::word(p, 4);
    let read = run_input::read_record(work, t, kind, edition, empty, count, record);
    let first = assign(work, t, kind, edition, read.line, 0);
    let second = assign(work, t, kind, edition, first.line, 2);
    let got = get(work, t, kind, edition, second.line);
    is_outcome(p, 0, read.outcome)
        && is_outcome(p, 1, first.outcome)
        && is_outcome(p, 2, second.outcome)
        && is_outcome(p, 3, got)
}

// Runs the case whose slots are set, with the separator that FS is.
fn runs(work: &mut [u8; ROOM], p: &[u8], rest: &[u8]) -> bool {
    let edition = Edition {
        number: Edition::FIRST,
    };
    let mut t = [0u64; TABLE_WORDS];
    let kind = run_separator::separator_of(work, edition, &mut t);
    let record = slots::bytes_of(slots::value(rest, 5));
    answers(work, &t, kind, edition, p, record)
}

// Tells whether the case in a payload passes.
pub fn passes(p: &[u8]) -> bool {
    if p.len() < 12 {
        return false;
    }
    let rest = &p[12..];
    let mut work = [slots::BEFORE; ROOM];
    loads(&mut work, rest)
        && runs(&mut work, p, rest)
        && both_leave(&work, p, rest)
        && shows(&work, rest)
}
