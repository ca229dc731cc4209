// Variables, got and set.
ghost use Rattle.std.specs.Prelude.{◌≡◌, List, ℕ, ◌+◌, ◌≤◌, ◌<◌, length};
ghost use Rattle.std.proofs.Math.Option.{some};
ghost use Rattle.splitting.specs.Separator.{Separator};
ghost use Rattle.run_room.specs.Layout.{slot_count, base_end};
ghost use Rattle.run_room.specs.Room.{Lined, store_of, with_slot};
ghost use Rattle.run_room.specs.Held.{Did};
ghost use Rattle.edition.specs.Limits.{operand_depth, number_bound};
ghost use Rattle.ere_table.specs.Table.{table_words};
ghost use Rattle.separators.specs.Kinds.{Sized, Tells};
ghost use Rattle.values.specs.Value.{Value};
ghost use Rattle.semantics.specs.World.{World, value_at};
ghost use Rattle.run_lines.specs.Records.{Safe, InForce};
ghost use Rattle.run_operations.specs.Assigns.{Known, Assigns};

use edition::Edition;
use run_room::Line;
use separators::Kind;

// The record, and what FS separates by, after a variable was set.
#[derive(Drop)]
pub struct Assigned {
    pub line: Line,
    pub kind: Kind,
}

// Sets a slot to the value of variable v, where `records` were begun.
pub fn get_variable(
    work: &mut [u8],
    t: &[u64],
    kind: Kind,
    edition: Edition,
    line: Line,
    records: u64,
    v: usize,
    a: usize,
) -> Line
    requires { (base_end ≤ length work.old) × Lined line × Sized kind t.now × (records ≤ number_bound)
        × (operand_depth + v < slot_count) × (a < slot_count) }
    ensures { Did work.old line work.new result (Safe work.old work.new result)
        ((fs : List ℕ) → Tells edition.number fs t.now kind
        → (s : Separator) → InForce edition.number fs line s
        → (w : World) → Known work.old line s records w
        → (b : Value) → value_at edition.number w v ≡ some b
        → (InForce edition.number fs result s)
        × (store_of work.new result s ≡ with_slot (store_of work.old line s) a b)) }
{
    let source = opcodes::source(edition.number, v as u64);
    if source == opcodes::FIELD_COUNT {
        return run_records::get_count(work, t, kind, edition, line, a);
    }
    if source == opcodes::RECORD_COUNT {
        run_room::set_number(work, a, number::ZERO + records);
        return line;
    }
    run_room::copy_slot(work, run_room::OPERANDS + v, a);
    line
}

// Sets variable v to the value of a slot, which stays there.
pub fn set_variable(
    work: &mut [u8],
    t: &mut [u64],
    kind: Kind,
    edition: Edition,
    line: Line,
    v: usize,
    a: usize,
) -> Assigned
    requires { (base_end ≤ length work.old) × Lined line × (length t.old ≡ table_words)
        × (operand_depth + v < slot_count) × (a < slot_count) }
    ensures { Did work.old line work.new result.line
        ((Safe work.old work.new result.line) × (length t.new ≡ table_words))
        (Assigns edition.number t.old t.new kind result.kind
        work.old work.new line result.line v a) }
{
    if run_room::OPERANDS + v != run_separator::FS {
        run_room::copy_slot(work, a, run_room::OPERANDS + v);
        return Assigned {
            line: line,
            kind: kind,
        };
    }
    let r = run_separator::set_separator(work, t, kind, edition, line, a);
    let next = run_separator::separator_of(work, edition, t);
    Assigned {
        line: r,
        kind: next,
    }
}
