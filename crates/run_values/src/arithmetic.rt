// Arithmetic on the numbers of values.
ghost use Rattle.std.specs.Prelude.{◌≡◌, ◌+◌, ◌*◌, ◌≤◌, ◌<◌, length};
ghost use Rattle.run_room.specs.Layout.{slots_end, slot_count};
ghost use Rattle.run_room.specs.Room.{slot_at};
ghost use Rattle.number.specs.Range.{unbias, top};
ghost use Rattle.number.specs.Answers.{answer_of, Bounded, Computes};
ghost use Rattle.values.specs.Value.{result as result_of};
ghost use Rattle.values.specs.Operations.{computed as value_computed, a_number, arithmetic_of, negate_of, to_number_of};
ghost use Rattle.run_values.specs.Codes.{arithmetic_by};
ghost use Rattle.run_values.specs.Left.{Left};

use number::Stop;

// Computes what a code says.
fn computed(code: u64, x: u64, y: u64) -> Result<u64, Stop>
    requires { (x ≤ top) × (y ≤ top) }
    ensures { Computes result (value_computed (arithmetic_by code) (unbias x) (unbias y)) }
{
    match code {
        opcodes::ADD => number::add(x, y),
        opcodes::SUBTRACT => number::subtract(x, y),
        opcodes::MULTIPLY => number::multiply(x, y),
        opcodes::DIVIDE => number::divide(x, y),
        _ => number::remainder(x, y),
    }
}

// Sets a slot to a number, or returns why there is none.
fn put_computed(work: &mut [u8], a: usize, c: Result<u64, Stop>) -> u64
    requires { (slots_end ≤ length work.old) × (a < slot_count) × Bounded c }
    ensures { Left work.old work.new a result (a_number (result_of (answer_of c))) }
{
    match c {
        Ok(w) => {
            run_room::set_number(work, a, w);
            0
        }
        Err(e) => e.outcome(),
    }
}

// Computes what a code says on the numbers of two values, the left one's first.
pub fn calculate(work: &mut [u8], a: usize, code: u64) -> u64
    requires { (slots_end ≤ length work.old) × (a + 1 < slot_count) }
    ensures { Left work.old work.new a result
        (arithmetic_of (arithmetic_by code) (slot_at work.old a) (slot_at work.old (a + 1))) }
{
    let b = a + 1;
    let left = run_numbers::take_number(work, a);
    if left.stop != 0 {
        return left.stop;
    }
    let right = run_numbers::take_number(work, b);
    if right.stop != 0 {
        return right.stop;
    }
    put_computed(work, a, computed(code, left.word, right.word))
}

// Replaces a value by its number with the other sign.
pub fn negate(work: &mut [u8], a: usize) -> u64
    requires { (slots_end ≤ length work.old) × (a < slot_count) }
    ensures { Left work.old work.new a result (negate_of (slot_at work.old a)) }
{
    let x = run_numbers::take_number(work, a);
    if x.stop != 0 {
        return x.stop;
    }
    put_computed(work, a, number::negate(x.word))
}

// Replaces a value by its number.
pub fn to_number(work: &mut [u8], a: usize) -> u64
    requires { (slots_end ≤ length work.old) × (a < slot_count) }
    ensures { Left work.old work.new a result (to_number_of (slot_at work.old a)) }
{
    let x = run_numbers::take_number(work, a);
    if x.stop != 0 {
        return x.stop;
    }
    run_room::set_number(work, a, x.word);
    0
}
