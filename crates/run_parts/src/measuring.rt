// The size of all fields joined.
ghost use Rattle.std.specs.Prelude.{◌≡◌, List, ℕ, ◌+◌, ◌≤◌, ◌<◌, length};
ghost use Rattle.edition.specs.Limits.{text_bytes, field_count};
ghost use Rattle.buffer.specs.Parts.{part};
ghost use Rattle.values.specs.Value.{text_of};
ghost use Rattle.run_room.specs.Layout.{slot_count, base_end};
ghost use Rattle.run_room.specs.Room.{value_by, Placed};
ghost use Rattle.run_parts.specs.Join.{gap_of, Measured, TooLong};

use crate::parts::Part;
use crate::{bounding, parts};
use edition::Edition;
use run_room::Line;

// Returns the size of a value's text.
fn text_length(p: Part) -> usize
    ensures { (x : List ℕ) → p.from + p.size ≤ length x
        → result ≡ length (text_of (value_by p.kind p.word (part p.from p.size x))) }
{
    let k = p.kind;
    if k == run_room::NUMBER {
        let w = p.word.min(number::TOP);
        return decimals::decimal_length(w);
    }
    if k < run_room::TEXT {
        return 0;
    }
    p.size
}

// Returns the size of what is before field i, where n bytes are between fields.
fn gap_length(i: usize, n: usize) -> usize
    ensures { (result ≤ n) × ((b : List ℕ) → length b ≡ n → result ≡ length (gap_of b i)) }
{
    if i == 0 {
        return 0;
    }
    n
}

// Returns the size of all fields joined, or more than a text may have.
fn measure(work: &[u8], line: Line, k: usize, v: usize, count: usize, n: usize) -> usize
    requires { (base_end ≤ length work.now) × Placed line × (count ≤ field_count) × (v < slot_count)
        × (n ≤ text_bytes) }
    ensures { Measured work.now line k v count n result }
{
    let mut sum = 0;
    for i in 0..count {
        let p = parts::field_part(work, line, k, v, i);
        let m = text_length(p);
        if Edition::TEXT < m {
            return Edition::TEXT + 1;
        }
        sum = sum + gap_length(i, n) + m;
        if Edition::TEXT < sum {
            return Edition::TEXT + 1;
        }
    }
    sum
}

// Tells whether all fields joined are more than a text may have. They are measured only if a bound of their size is too
// much.
pub fn too_long(work: &[u8], line: Line, k: usize, v: usize, count: usize, n: usize) -> bool
    requires { (base_end ≤ length work.now) × Placed line × (line.known ≤ count) × (count ≤ field_count)
        × (v < slot_count) × (n ≤ text_bytes) }
    ensures { TooLong work.now line k v count n result }
{
    if bounding::surely_fits(work, line, v, count, n) {
        return false;
    }
    Edition::TEXT < measure(work, line, k, v, count, n)
}
