// The number of a value, and the field number that it is.
ghost use Rattle.std.specs.Prelude.{◌≡◌, ◌≤◌, ◌<◌, length};
ghost use Rattle.numeral.specs.Judgement.{number_of as text_number_of};
ghost use Rattle.values.specs.Value.{result as result_of, number_of};
ghost use Rattle.values.specs.Operations.{field_number};
ghost use Rattle.run_room.specs.Layout.{slots_end, slot_count};
ghost use Rattle.run_room.specs.Room.{slot_at};
ghost use Rattle.run_numbers.specs.Numbers.{TakenBy, FieldBy};

use edition::Edition;

// A number, as its distance from the least one, unless `stop` isn't 0.
#[derive(Drop)]
pub struct Taken {
    pub stop: u64,
    pub word: u64,
}

// A field number, unless `stop` isn't 0.
#[derive(Drop)]
pub struct FieldNumber {
    pub stop: u64,
    pub k: usize,
}

// Takes the number of a text.
fn text_number(text: &[u8]) -> Taken
    ensures { TakenBy (result_of (text_number_of text.now)) result }
{
    match numeral::read_number(text).value {
        Ok(w) => Taken { stop: 0, word: w },
        Err(e) => Taken {
            stop: e.outcome(),
            word: 0,
        },
    }
}

// Takes the number of a slot's value: 11, 12.
pub fn take_number(work: &[u8], i: usize) -> Taken
    requires { (slots_end ≤ length work.now) × (i < slot_count) }
    ensures { TakenBy (number_of (slot_at work.now i)) result }
{
    let k = run_room::slot_kind(work, i);
    if k == run_room::NUMBER {
        return Taken {
            stop: 0,
            word: run_room::slot_number(work, i),
        };
    }
    if k == run_room::UNSET {
        return Taken {
            stop: 0,
            word: number::ZERO,
        };
    }
    text_number(run_room::slot_text(work, i))
}

// Takes the field number that a slot's value is: 11, 12, then 16.
pub fn field_number(work: &[u8], i: usize) -> FieldNumber
    requires { (slots_end ≤ length work.now) × (i < slot_count) }
    ensures { FieldBy (field_number (slot_at work.now i)) result }
{
    let n = take_number(work, i);
    if n.stop != 0 {
        return FieldNumber { stop: n.stop, k: 0 };
    }
    if n.word < number::ZERO {
        return FieldNumber { stop: 16, k: 0 };
    }
    let k = n.word - number::ZERO;
    if (Edition::FIELDS as u64) < k {
        return FieldNumber { stop: 16, k: 0 };
    }
    FieldNumber {
        stop: 0,
        k: k as usize,
    }
}
