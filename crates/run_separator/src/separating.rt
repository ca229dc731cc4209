// The separator: FS, in its slot.
ghost use Rattle.std.specs.Prelude.{◌≡◌, List, ℕ, ◌≤◌, ◌<◌, length};
ghost use Rattle.ere_table.specs.Table.{table_words};
ghost use Rattle.splitting.specs.Separator.{Separator};
ghost use Rattle.separators.specs.Kinds.{Sized, Tells};
ghost use Rattle.run_room.specs.Layout.{slot_count, slots_end, base_end};
ghost use Rattle.run_room.specs.Room.{slot_at, Lined, store_of, with_slot};
ghost use Rattle.run_room.specs.Held.{Did};
ghost use Rattle.run_lines.specs.Records.{fs_slot, Safe, InForce, SeparatorOf};

use edition::Edition;
use run_room::Line;
use separators::Kind;

// The slot of FS, and that of OFS.
pub const FS: usize = run_room::OPERANDS + 2;

pub const OFS: usize = run_room::OPERANDS + 3;

// Sets FS to the value of a slot. The record's fields are split off before that by the FS that it was read with.
pub fn set_separator(
    work: &mut [u8],
    t: &[u64],
    kind: Kind,
    edition: Edition,
    line: Line,
    from: usize,
) -> Line
    requires { (base_end ≤ length work.old) × Lined line × Sized kind t.now × (from < slot_count) }
    ensures { Did work.old line work.new result (Safe work.old work.new result)
        ((result.size < result.after)
        × ((fs : List ℕ) → Tells edition.number fs t.now kind
        → (s s' : Separator) → InForce edition.number fs line s
        → store_of work.new result s'
        ≡ with_slot (store_of work.old line s) fs_slot (slot_at work.old from))) }
{
    let r = run_lines::split_all(work, t, kind, edition, line);
    run_room::copy_slot(work, from, FS);
    r
}

// Returns what FS separates by, and writes the table if it is an ERE. Nothing changes but the digits of a number that
// FS is.
pub fn separator_of(work: &mut [u8], edition: Edition, t: &mut [u64]) -> Kind
    requires { (slots_end ≤ length work.old) × (length t.old ≡ table_words) }
    ensures { SeparatorOf edition.number work.old work.new t.new result }
{
    let n = run_room::show(work, FS);
    let from = FS * run_room::SLOT + run_room::HEAD;
    let end = from + n;
    separators::kind_of(&work[from..end], edition, t)
}
