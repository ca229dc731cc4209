// All fields joined, one after the other, with their entries.
ghost use Rattle.std.specs.Prelude.{◌≡◌, ◌⊎◌, ◌+◌, ◌≤◌, ◌<◌, length};
ghost use Rattle.edition.specs.Limits.{text_bytes, field_count};
ghost use Rattle.buffer.specs.Parts.{part};
ghost use Rattle.values.specs.Value.{text_of};
ghost use Rattle.run_room.specs.Layout.{slot_count, slots_end, record_start, entries_start, base_end};
ghost use Rattle.run_room.specs.Room.{value_by, Placed};
ghost use Rattle.run_parts.specs.Join.{record_end, Grown, PartOf, new_field, new_fields, gap_of, joined_text, Turned, Joins};

use crate::parts;
use crate::parts::Part;
use run_room::{Entry, Line};

// Copies a part of the room to the end of the first `at` bytes of a record.
fn grow_text(work: &mut [u8], side: usize, at: usize, from: usize, n: usize)
    requires { (base_end ≤ length work.old) × (side < 2) × (at + n ≤ text_bytes) × (from + n + 15 ≤ entries_start)
        × ((from + n + 15 ≤ record_start side) ⊎ (record_end side ≤ from)) }
    ensures { Grown work.old work.new side at (part from n work.old) }
{
    run_room::copy_blocks(work, from, run_room::record_start(side) + at, n);
}

// Writes what is between fields before field i, unless it is the first; returns the place after it.
fn put_gap(work: &mut [u8], side: usize, i: usize, at: usize, from: usize, n: usize) -> usize
    requires { (base_end ≤ length work.old) × (side < 2)
        × (at + length (gap_of (part from n work.old) i) ≤ text_bytes)
        × (n ≤ text_bytes) × (from + n + 15 ≤ slots_end) }
    ensures { (result ≡ at + length (gap_of (part from n work.old) i))
        × (Grown work.old work.new side at (gap_of (part from n work.old) i)) }
{
    if i == 0 {
        return at;
    }
    grow_text(work, side, at, from, n);
    at + n
}

// Writes the text of a value after the first `at` bytes; returns its size.
fn put_text(work: &mut [u8], side: usize, at: usize, p: Part) -> usize
    requires { (base_end ≤ length work.old) × (side < 2) × PartOf side p
        × (at + length (text_of (value_by p.kind p.word (part p.from p.size work.old))) ≤ text_bytes) }
    ensures { (result ≡ length (text_of (value_by p.kind p.word (part p.from p.size work.old))))
        × (Grown work.old work.new side at
        (text_of (value_by p.kind p.word (part p.from p.size work.old)))) }
{
    let k = p.kind;
    if k == run_room::NUMBER {
        let w = p.word.min(number::TOP);
        return decimals::write_decimal(work, run_room::record_start(side) + at, w);
    }
    if k < run_room::TEXT {
        return 0;
    }
    grow_text(work, side, at, p.from, p.size);
    p.size
}

// Writes field i after the first `at` bytes of the other record, and its entry; returns where it ends.
fn join_one(
    work: &mut [u8],
    line: Line,
    k: usize,
    v: usize,
    i: usize,
    at: usize,
    from: usize,
    n: usize,
) -> usize
    requires { (base_end ≤ length work.old) × Placed line × (i < field_count) × (v < slot_count) × (n ≤ text_bytes)
        × (from + n + 15 ≤ slots_end)
        × (at + length (gap_of (part from n work.old) i) + length (text_of (new_field work.old line k v i))
        ≤ text_bytes) }
    ensures { Turned work.old work.new line k v i at result (part from n work.old) }
{
    let side = 1 - line.side;
    let p = parts::field_part(work, line, k, v, i);
    let a = put_gap(work, side, i, at, from, n);
    let m = put_text(work, side, a, p);
    let e = Entry {
        kind: p.kind,
        start: a,
        size: m,
        number: p.word,
    };
    run_room::put_entry(work, i, e);
    a + m
}

// Joins all fields, of which there are `count`, into the other record; returns its size.
pub fn join_all(
    work: &mut [u8],
    line: Line,
    k: usize,
    v: usize,
    count: usize,
    from: usize,
    n: usize,
) -> usize
    requires { (base_end ≤ length work.old) × Placed line × (count ≤ field_count) × (v < slot_count) × (n ≤ text_bytes)
        × (from + n + 15 ≤ slots_end)
        × (length (joined_text (part from n work.old) (new_fields work.old line k v count)) ≤ text_bytes) }
    ensures { Joins work.old work.new line k v (part from n work.old) count result }
{
    let mut at = 0;
    for i in 0..count {
        at = join_one(work, line, k, v, i, at, from, n);
    }
    at
}
