// `$0` becomes the text of a value.
ghost use Rattle.std.specs.Prelude.{◌≡◌, ◌≤◌, ◌<◌, length};
ghost use Rattle.separators.specs.Kinds.{Sized, Tells};
ghost use Rattle.semantics.specs.World.{World, special};
ghost use Rattle.semantics.specs.Variables.{FS};
ghost use Rattle.semantics.specs.Operations.{assigned};
ghost use Rattle.run_room.specs.Layout.{slot_count, base_end};
ghost use Rattle.run_room.specs.Room.{slot_at, Lined};
ghost use Rattle.run_room.specs.Held.{Did};
ghost use Rattle.run_lines.specs.Records.{Safe, Becomes};

use edition::Edition;
use run_input::Begun;
use run_room::Line;
use separators::Kind;

// Sets the record to the text of a slot's value, which the FS in force splits: 18, then 16.
pub fn set_record(
    work: &mut [u8],
    t: &[u64],
    kind: Kind,
    edition: Edition,
    line: Line,
    v: usize,
) -> Begun
    requires { (base_end ≤ length work.old) × Lined line × Sized kind t.now × (v < slot_count) }
    ensures { Did work.old line work.new result.line
        (Safe work.old work.new result.line)
        ((w : World) → Tells edition.number (special w FS) t.now kind
        → Becomes edition.number (special w FS) work.old work.new line result.line result.outcome
        (assigned edition.number w 0 (slot_at work.old v))) }
{
    let o = run_input::refusal_of(kind);
    if o != 0 {
        return Begun {
            outcome: o,
            line: line,
        };
    }
    let n = run_room::show(work, v);
    run_input::begin_part(
        work,
        t,
        kind,
        edition,
        line,
        v * run_room::SLOT + run_room::HEAD,
        n,
    )
}
