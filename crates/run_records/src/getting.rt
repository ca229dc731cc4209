// Values of fields, and their number, to slots.
ghost use Rattle.std.specs.Prelude.{◌≡◌, List, ℕ, ◌≤◌, ◌<◌, length, pos};
ghost use Rattle.edition.specs.Limits.{field_count};
ghost use Rattle.splitting.specs.Separator.{Separator};
ghost use Rattle.separators.specs.Kinds.{Sized, Tells};
ghost use Rattle.values.specs.Value.{number};
ghost use Rattle.semantics.specs.World.{World, record_of};
ghost use Rattle.semantics.specs.Operations.{field_at, get_field};
ghost use Rattle.run_room.specs.Layout.{slot_count, base_end};
ghost use Rattle.run_room.specs.Room.{slot_at, line_of, fields_of, Lined, store_of, with_slot};
ghost use Rattle.run_room.specs.Held.{Slotted, Did};
ghost use Rattle.run_lines.specs.Records.{Safe, InForce, known_field, Leaves};

use edition::Edition;
use run_input::Begun;
use run_room::Line;
use separators::Kind;

// Sets a slot to field k, where the record is split as far as that.
fn put_field(work: &mut [u8], line: Line, k: usize, slot: usize)
    requires { (base_end ≤ length work.old) × Lined line × (k ≤ field_count) × (slot < slot_count) }
    ensures { Slotted work.old work.new slot (known_field work.old line k)
        Unit }
{
    let start = run_room::record_start(line.side);
    if k == 0 {
        run_room::set_value(work, slot, run_room::FIELD, 0, start, line.size);
        return;
    }
    if line.known < k {
        run_room::set_unset(work, slot);
        return;
    }
    let e = run_room::read_entry(work, line, k - 1);
    run_room::set_value(work, slot, e.kind, e.number, start + e.start, e.size);
}

// Sets a slot to field k, and splits the record as far as that.
pub fn get_field(
    work: &mut [u8],
    t: &[u64],
    kind: Kind,
    edition: Edition,
    line: Line,
    k: usize,
    slot: usize,
) -> Line
    requires { (base_end ≤ length work.old) × Lined line × Sized kind t.now × (k ≤ field_count)
        × (slot < slot_count) }
    ensures { Did work.old line work.new result (Safe work.old work.new result)
        ((fs : List ℕ) → Tells edition.number fs t.now kind → (s : Separator)
        → InForce edition.number fs line s
        → (w : World) → w.current ≡ record_of (line_of work.old line) (fields_of work.old line s)
        → (InForce edition.number fs result s)
        × (store_of work.new result s ≡ with_slot (store_of work.old line s) slot (field_at w k))) }
{
    let r = run_lines::split_to(work, t, kind, edition, line, k);
    put_field(work, r, k, slot);
    r
}

// Sets a slot to the number of fields, for which all are split off.
pub fn get_count(
    work: &mut [u8],
    t: &[u64],
    kind: Kind,
    edition: Edition,
    line: Line,
    slot: usize,
) -> Line
    requires { (base_end ≤ length work.old) × Lined line × Sized kind t.now × (slot < slot_count) }
    ensures { Did work.old line work.new result (Safe work.old work.new result)
        ((fs : List ℕ) → Tells edition.number fs t.now kind → (s : Separator)
        → InForce edition.number fs line s → (InForce edition.number fs result s) × (store_of work.new result s
        ≡ with_slot (store_of work.old line s) slot
        (number (pos (length (fields_of work.old line s)))))) }
{
    let r = run_lines::split_all(work, t, kind, edition, line);
    run_room::set_number(work, slot, Edition::NUMBER + r.known as u64);
    r
}

// Replaces the field number in a slot by the field's value: 11, 12, 16.
pub fn load_field(
    work: &mut [u8],
    t: &[u64],
    kind: Kind,
    edition: Edition,
    line: Line,
    a: usize,
) -> Begun
    requires { (base_end ≤ length work.old) × Lined line × Sized kind t.now × (a < slot_count) }
    ensures { Did work.old line work.new result.line
        (Safe work.old work.new result.line)
        ((fs : List ℕ) → Tells edition.number fs t.now kind → (s : Separator)
        → InForce edition.number fs line s
        → (w : World) → w.current ≡ record_of (line_of work.old line) (fields_of work.old line s)
        → Leaves edition.number fs s w work.old work.new line result.line a result.outcome
        (get_field (slot_at work.old a) w)) }
{
    let f = run_numbers::field_number(work, a);
    if f.stop != 0 {
        return Begun {
            outcome: f.stop,
            line: line,
        };
    }
    let r = get_field(work, t, kind, edition, line, f.k, a);
    Begun {
        outcome: 0,
        line: r,
    }
}
