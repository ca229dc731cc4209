// Operations on the texts of values.
ghost use Rattle.std.specs.Prelude.{◌≡◌, cond, List, ℕ, suc, ◌+◌, ◌-◌, ◌*◌, ◌≤◌, ◌<◌, min, length, ◌+ℤ◌, eqb};
ghost use Rattle.edition.specs.Limits.{text_bytes};
ghost use Rattle.buffer.specs.Parts.{part};
ghost use Rattle.buffer.specs.First.{first_part};
ghost use Rattle.number.specs.Range.{unbias, top};
ghost use Rattle.run_room.specs.Layout.{head_size, slot_bytes, slots_end, slot_count};
ghost use Rattle.run_room.specs.Room.{slot_at};
ghost use Rattle.values.specs.Operations.{join_of, length_of, place_of, index_of, between, substr_of};
ghost use Rattle.run_values.specs.Left.{Left};

use edition::{Edition, Outcome};

// Joins the texts of two values: 14.
pub fn join(work: &mut [u8], a: usize) -> u64
    requires { (slots_end ≤ length work.old) × (a + 1 < slot_count) }
    ensures { Left work.old work.new a result
        (join_of (slot_at work.old a) (slot_at work.old (a + 1))) }
{
    let n = run_room::show(work, a);
    let m = run_room::show(work, a + 1);
    if Edition::TEXT < n + m {
        return Outcome::TEXT_TOO_LONG;
    }
    let to = a * run_room::SLOT + run_room::HEAD;
    run_room::copy_blocks(work, to + run_room::SLOT, to + n, m);
    run_room::set_length(work, a, n + m);
    0
}

// Replaces a value by the length of its text.
pub fn length_of(work: &mut [u8], a: usize) -> u64
    requires { (slots_end ≤ length work.old) × (a < slot_count) }
    ensures { Left work.old work.new a result (length_of (slot_at work.old a)) }
{
    let n = run_room::show(work, a);
    run_room::set_number(work, a, number::ZERO + n as u64);
    0
}

// Returns where the text of the second value, of m bytes, is in that of the first, of n bytes, from 1 on; 0 if nowhere.
fn place_of(work: &[u8], a: usize, n: usize, m: usize) -> u64
    requires { (slots_end ≤ length work.now) × (a + 1 < slot_count) × (n ≤ text_bytes) × (m ≤ text_bytes) }
    ensures { (result ≤ suc n) × (result ≡ cond (eqb m 0) 0 (place_of (first_part
        (part ((a + 1) * slot_bytes + head_size) m work.now)
        (part (a * slot_bytes + head_size) n work.now)))) }
{
    if m == 0 {
        return 0;
    }
    let s = a * run_room::SLOT + run_room::HEAD;
    let t = s + run_room::SLOT;
    let e = s + n;
    let f = t + m;
    let found = lanes::find(&work[s..e], &work[t..f]);
    match found {
        Some(p) => p as u64 + 1,
        None => 0,
    }
}

// Replaces two values by the place of the second one's text in that of the first.
pub fn index(work: &mut [u8], a: usize) -> u64
    requires { (slots_end ≤ length work.old) × (a + 1 < slot_count) }
    ensures { Left work.old work.new a result
        (index_of (slot_at work.old a) (slot_at work.old (a + 1))) }
{
    let n = run_room::show(work, a);
    let m = run_room::show(work, a + 1);
    let p = place_of(work, a, n, m);
    run_room::set_number(work, a, number::ZERO + p);
    0
}

// A part of a text: where it starts, and its size.
#[derive(Drop)]
pub struct Part {
    pub start: usize,
    pub size: usize,
}

// Returns the index of the first byte at a position of w - zero or more; positions count from 1 on.
fn index_from(w: u64, zero: u64) -> u64
    ensures { result ≡ w - zero - 1 }
{
    w.saturating_sub(zero).saturating_sub(1)
}

// Returns, of a text of n bytes, those at positions p from 1 on with x <= p < x + y, for numbers as distances from the
// least one.
fn part_of(n: usize, x: u64, y: u64) -> Part
    requires { (n ≤ text_bytes) × (x ≤ top) × (y ≤ top) }
    ensures { (result.start + result.size ≤ n) × ((l : List ℕ) → length l ≡ n
        → part result.start result.size l ≡ between (unbias x) (unbias x +ℤ unbias y) 1 l) }
{
    let first = index_from(x, number::ZERO);
    let end = index_from(x + y, 2 * number::ZERO);
    let last = end.min(n as u64);
    if last <= first {
        return Part { start: 0, size: 0 };
    }
    Part {
        start: first as usize,
        size: (last - first) as usize,
    }
}

// Replaces a value, a position and a count by that part of the value's text: 11, 12.
pub fn substr(work: &mut [u8], a: usize) -> u64
    requires { (slots_end ≤ length work.old) × (a + 2 < slot_count) }
    ensures { Left work.old work.new a result
        (substr_of (slot_at work.old a) (slot_at work.old (a + 1))
        (slot_at work.old (a + 2))) }
{
    let x = run_numbers::take_number(work, a + 1);
    if x.stop != 0 {
        return x.stop;
    }
    let y = run_numbers::take_number(work, a + 2);
    if y.stop != 0 {
        return y.stop;
    }
    let n = run_room::show(work, a);
    let p = part_of(n, x.word, y.word);
    let to = a * run_room::SLOT + run_room::HEAD;
    run_room::copy_blocks(work, to + p.start, to, p.size);
    run_room::set_length(work, a, p.size);
    0
}
