// Comparison, of numbers or of texts.
ghost use Rattle.std.specs.Prelude.{◌≡◌, true, ◌+◌, ◌*◌, ◌≤◌, ◌<◌, min, length};
ghost use Rattle.run_room.specs.Layout.{slots_end, slot_count};
ghost use Rattle.run_room.specs.Room.{slot_at};
ghost use Rattle.buffer.specs.Order.{ordering};
ghost use Rattle.number.specs.Range.{unbias, top};
ghost use Rattle.values.specs.Value.{Value, text_of};
ghost use Rattle.values.specs.Operations.{order_of, holds as value_holds, compare_of};
ghost use Rattle.run_values.specs.Codes.{comparison_by};
ghost use Rattle.run_values.specs.Answers.{JudgedBy};
ghost use Rattle.run_values.specs.Left.{Left, Unchanged};

use std::cmp::Ordering;

// Returns the order of two numbers.
fn number_order(x: u64, y: u64) -> Ordering
    ensures { result ≡ order_of (unbias x) (unbias y) }
{
    x.cmp(&y)
}

// Tells whether a comparison holds for an order. A code of none is that of the last one.
fn holds(code: u64, o: Ordering) -> bool
    ensures { result ≡ value_holds (comparison_by code) o }
{
    match o {
        Ordering::Less => (code == opcodes::LESS)
            | (code == opcodes::AT_MOST)
            | (code == opcodes::DIFFERENT),
        Ordering::Equal => (code != opcodes::LESS)
            & (code != opcodes::DIFFERENT)
            & (code != opcodes::GREATER),
        Ordering::Greater => (code != opcodes::LESS)
            & (code != opcodes::AT_MOST)
            & (code != opcodes::EQUAL),
    }
}

// Returns the order of two texts: that of the first bytes that differ, or of the sizes. Where these are among the first
// bytes, this loop is faster than `buffer::compare`: 7 ns in place of 11.
fn bytes_order(a: &[u8], b: &[u8]) -> Ordering
    ensures { result ≡ ordering a.now b.now }
{
    let n = a.len().min(b.len());
    for k in 0..n {
        if a[k] < b[k] {
            return Ordering::Less;
        }
        if b[k] < a[k] {
            return Ordering::Greater;
        }
    }
    a.len().cmp(&b.len())
}

// Returns the order of the texts of two values.
fn text_order(work: &mut [u8], a: usize) -> Ordering
    requires { (slots_end ≤ length work.old) × (a + 1 < slot_count) }
    ensures { (result ≡ ordering (text_of (slot_at work.old a))
        (text_of (slot_at work.old (a + 1)))) × (Unchanged work.old work.new) }
{
    let n = run_room::show(work, a);
    let m = run_room::show(work, a + 1);
    let s = a * run_room::SLOT + run_room::HEAD;
    let t = s + run_room::SLOT;
    let e = s + n;
    let f = t + m;
    bytes_order(&work[s..e], &work[t..f])
}

// Compares the numbers of two values, the left one's stop first.
fn compare_numbers(
    work: &mut [u8],
    a: usize,
    code: u64,
    x: run_values::Judged,
    y: run_values::Judged,
) -> u64
    requires { (slots_end ≤ length work.old) × (a < slot_count) }
    ensures { (v w : Value) → JudgedBy v x → JudgedBy w y → x.numeric ≡ true → y.numeric ≡ true
        → Left work.old work.new a result (compare_of (comparison_by code) v w) }
{
    if x.stop != 0 {
        return x.stop;
    }
    if y.stop != 0 {
        return y.stop;
    }
    run_values::set_truth(work, a, holds(code, number_order(x.word, y.word)));
    0
}

// Compares two values as a code says: their numbers if both look numeric, else their texts. The right one is judged
// first: often it is a text constant, and then a field on the left isn't read as a number.
pub fn compare(work: &mut [u8], a: usize, code: u64) -> u64
    requires { (slots_end ≤ length work.old) × (a + 1 < slot_count) }
    ensures { Left work.old work.new a result
        (compare_of (comparison_by code) (slot_at work.old a) (slot_at work.old (a + 1))) }
{
    let y = run_values::judge(work, a + 1);
    if y.numeric {
        let x = run_values::judge(work, a);
        if x.numeric {
            return compare_numbers(work, a, code, x, y);
        }
    }
    let o = text_order(work, a);
    run_values::set_truth(work, a, holds(code, o));
    0
}
