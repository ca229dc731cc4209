// The numeric look and the truth of values.
ghost use Rattle.std.specs.Prelude.{◌≡◌, ◌+◌, ◌*◌, ◌≤◌, ◌<◌, length};
ghost use Rattle.run_room.specs.Layout.{slots_end, slot_count};
ghost use Rattle.run_room.specs.Room.{slot_at};
ghost use Rattle.numeral.specs.Judgement.{number_of as text_number_of};
ghost use Rattle.values.specs.Value.{field_text, truth_of, truth_value};
ghost use Rattle.values.specs.Operations.{not_of};
ghost use Rattle.run_room.specs.Held.{Slotted};
ghost use Rattle.run_values.specs.Answers.{JudgedBy, TruthBy};
ghost use Rattle.run_values.specs.Left.{Left};

// Whether a value is compared as a number, and then its number, unless `stop` isn't 0.
#[derive(Drop)]
pub struct Judged {
    pub numeric: bool,
    pub stop: u64,
    pub word: u64,
}

// Whether a value is true, unless `stop` isn't 0.
#[derive(Drop)]
pub struct Truth {
    pub stop: u64,
    pub holds: bool,
}

// Judges a text of a field.
fn judge_field(text: &[u8]) -> Judged
    ensures { JudgedBy (field_text text.now) result }
{
    let r = numeral::read_number(text);
    let numeric = r.numeric;
    match r.value {
        Ok(w) => Judged {
            numeric,
            stop: 0,
            word: w,
        },
        Err(e) => Judged {
            numeric,
            stop: e.outcome(),
            word: 0,
        },
    }
}

// Judges the value of a slot.
pub fn judge(work: &[u8], i: usize) -> Judged
    requires { (slots_end ≤ length work.now) × (i < slot_count) }
    ensures { JudgedBy (slot_at work.now i) result }
{
    let k = run_room::slot_kind(work, i);
    if k == run_room::NUMBER {
        return Judged {
            numeric: true,
            stop: 0,
            word: run_room::slot_number(work, i),
        };
    }
    if k == run_room::UNSET {
        return Judged {
            numeric: true,
            stop: 0,
            word: number::ZERO,
        };
    }
    if k == run_room::TEXT {
        return Judged {
            numeric: false,
            stop: 0,
            word: 0,
        };
    }
    judge_field(run_room::slot_text(work, i))
}

// Tells whether the value of a slot is true.
pub fn is_true(work: &[u8], i: usize) -> Truth
    requires { (slots_end ≤ length work.now) × (i < slot_count) }
    ensures { TruthBy (truth_of (slot_at work.now i)) result }
{
    let j = judge(work, i);
    if j.numeric {
        return Truth {
            stop: j.stop,
            holds: j.word != number::ZERO,
        };
    }
    Truth {
        stop: 0,
        holds: run_room::text_size(work, i) != 0,
    }
}

// Sets a slot to 1 or 0.
pub fn set_truth(work: &mut [u8], a: usize, holds: bool)
    requires { (slots_end ≤ length work.old) × (a < slot_count) }
    ensures { Slotted work.old work.new a (truth_value holds) Unit }
{
    let n = if holds {
        number::ZERO + 1
    } else {
        number::ZERO
    };
    run_room::set_number(work, a, n);
}

// Replaces a value by the truth of its opposite.
pub fn negation(work: &mut [u8], a: usize) -> u64
    requires { (slots_end ≤ length work.old) × (a < slot_count) }
    ensures { Left work.old work.new a result (not_of (slot_at work.old a)) }
{
    let t = is_true(work, a);
    if t.stop != 0 {
        return t.stop;
    }
    set_truth(work, a, !t.holds);
    0
}
