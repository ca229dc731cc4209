// A field becomes another value.
ghost use Rattle.std.specs.Prelude.{◌≡◌, List, ℕ, suc, ◌+◌, ◌-◌, ◌≤◌, ◌<◌, length};
ghost use Rattle.edition.specs.Limits.{field_count, operand_depth};
ghost use Rattle.splitting.specs.Separator.{Separator};
ghost use Rattle.separators.specs.Kinds.{Sized, Tells};
ghost use Rattle.values.specs.Value.{text_of};
ghost use Rattle.semantics.specs.World.{World, record_of, special};
ghost use Rattle.semantics.specs.Variables.{OFS};
ghost use Rattle.semantics.specs.Operations.{assigned};
ghost use Rattle.run_room.specs.Layout.{base_end};
ghost use Rattle.run_room.specs.Room.{slot_at, line_of, fields_of, Lined};
ghost use Rattle.run_room.specs.Held.{Did};
ghost use Rattle.run_lines.specs.Records.{ofs_slot, Safe, InForce, Becomes};
ghost use Rattle.run_join.specs.Stores.{Assigns, Stores};

use edition::{Edition, Outcome};
use run_input::Begun;
use run_room::Line;
use separators::Kind;

// Returns how many fields there are with field k.
fn field_count(known: usize, k: usize) -> usize
    requires { k < field_count }
    ensures { result ≡ known + (suc k - known) }
{
    if known <= k { k + 1 } else { known }
}

// Sets field k + 1 to the value of an operand: all fields are split off, and joined with the present OFS into the other
// record.
pub fn set_field(
    work: &mut [u8],
    t: &[u64],
    kind: Kind,
    edition: Edition,
    line: Line,
    k: usize,
    v: usize,
) -> Begun
    requires { (base_end ≤ length work.old) × Lined line × Sized kind t.now × (k < field_count)
        × (v < operand_depth) }
    ensures { Did work.old line work.new result.line
        (Safe work.old work.new result.line)
        ((fs : List ℕ) → Tells edition.number fs t.now kind → (s : Separator)
        → InForce edition.number fs line s → (w : World)
        → w.current ≡ record_of (line_of work.old line) (fields_of work.old line s)
        → special w OFS ≡ text_of (slot_at work.old ofs_slot)
        → Becomes edition.number fs work.old work.new line result.line result.outcome
        (assigned edition.number w (suc k) (slot_at work.old v))) }
{
    let n = run_room::show(work, run_separator::OFS);
    let all = run_lines::split_all(work, t, kind, edition, line);
    let count = field_count(all.known, k);
    if run_parts::too_long(work, all, k, v, count, n) {
        return Begun {
            outcome: Outcome::TEXT_TOO_LONG,
            line: all,
        };
    }
    let from = run_separator::OFS * run_room::SLOT + run_room::HEAD;
    let at = run_parts::join_all(work, all, k, v, count, from, n);
    Begun {
        outcome: 0,
        line: Line {
            side: 1 - all.side,
            size: at,
            known: count,
            after: at + 1,
        },
    }
}

// Sets field k, or the record where that is 0, to the value of an operand.
fn assign(
    work: &mut [u8],
    t: &[u64],
    kind: Kind,
    edition: Edition,
    line: Line,
    k: usize,
    v: usize,
) -> Begun
    requires { (base_end ≤ length work.old) × Lined line × Sized kind t.now × (k ≤ field_count)
        × (v < operand_depth) }
    ensures { Assigns edition.number t.now kind work.old work.new line
        result.line k v result.outcome }
{
    if k == 0 {
        return run_records::set_record(work, t, kind, edition, line, v);
    }
    set_field(work, t, kind, edition, line, k - 1, v)
}

// Sets the field whose number is in slot a to the value of the slot after it, which is left in slot a: 11, 12, 16, 18,
// 14.
pub fn store_field(
    work: &mut [u8],
    t: &[u64],
    kind: Kind,
    edition: Edition,
    line: Line,
    a: usize,
) -> Begun
    requires { (base_end ≤ length work.old) × Lined line × Sized kind t.now × (a + 1 < operand_depth) }
    ensures { Stores edition.number t.now kind work.old work.new line
        result.line a result.outcome }
{
    let f = run_numbers::field_number(work, a);
    if f.stop != 0 {
        return Begun {
            outcome: f.stop,
            line: line,
        };
    }
    let r = assign(work, t, kind, edition, line, f.k, a + 1);
    if r.outcome != 0 {
        return r;
    }
    run_room::copy_slot(work, a + 1, a);
    r
}
