// Values with their texts anywhere in the room.
ghost use Rattle.std.specs.Prelude.{◌≡◌, ℕ, ◌+◌, ◌*◌, ◌≤◌, ◌<◌, min, length};
ghost use Rattle.edition.specs.Limits.{field_count};
ghost use Rattle.buffer.specs.Parts.{part};
ghost use Rattle.run_room.specs.Layout.{slot_count, base_end};
ghost use Rattle.run_room.specs.Room.{value_by, Placed};
ghost use Rattle.run_parts.specs.Join.{PartOf, new_field};

use run_room::Line;

// A value: its kind, its number, and where in the room its text is.
#[derive(Clone, Copy)]
pub struct Part {
    pub kind: u8,
    pub word: u64,
    pub from: usize,
    pub size: usize,
}

// Returns field i, from 0 on, where field k is to be the value of slot v.
pub fn field_part(work: &[u8], line: Line, k: usize, v: usize, i: usize) -> Part
    requires { (base_end ≤ length work.now) × Placed line × (i < field_count) × (v < slot_count) }
    ensures { (value_by result.kind result.word (part result.from result.size work.now)
        ≡ new_field work.now line k v i)
        × ((side : ℕ) → side + line.side ≡ 1 → PartOf side result) }
{
    if i == k {
        return Part {
            kind: run_room::slot_kind(work, v),
            word: run_room::slot_number(work, v),
            from: v * run_room::SLOT + run_room::HEAD,
            size: run_room::text_size(work, v),
        };
    }
    if line.known <= i {
        return Part {
            kind: run_room::UNSET,
            word: 0,
            from: 0,
            size: 0,
        };
    }
    let e = run_room::read_entry(work, line, i);
    let start = run_room::record_start(line.side);
    Part {
        kind: e.kind,
        word: e.number,
        from: start + e.start,
        size: e.size,
    }
}
