// Splitting the record as far as its fields are asked for.
ghost use Rattle.std.specs.Prelude.{◌≡◌, ◌+◌, ◌≤◌, ◌<◌, length};
ghost use Rattle.edition.specs.Limits.{field_count};
ghost use Rattle.separators.specs.Kinds.{Sized};
ghost use Rattle.run_room.specs.Layout.{base_end};
ghost use Rattle.run_room.specs.Room.{Placed};
ghost use Rattle.run_lines.specs.Records.{Splits, SplitsAll};

use edition::Edition;
use run_room::{Entry, Line};
use separators::Kind;

// Splits the next field off, or finds that there is none.
fn split_one(work: &mut [u8], t: &[u64], kind: Kind, edition: Edition, line: Line) -> Line
    requires { (base_end ≤ length work.old) × Placed line × Sized kind t.now × (line.after ≤ line.size)
        × (line.known < field_count) }
    ensures { (line.after < result.after) × (result.known ≤ line.known + 1)
        × (Splits edition.number t.now kind work.old work.new line result) }
{
    let a = run_room::record_start(line.side);
    let e = a + line.size;
    let Some(f) = separators::next_field(&work[a..e], kind, edition, t, line.after) else {
        return line.split(line.known, line.size + 1);
    };
    let field = Entry {
        kind: run_room::FIELD,
        start: f.start,
        size: f.size,
        number: 0,
    };
    run_room::put_entry(work, line.known, field);
    line.split(line.known + 1, f.after)
}

// Splits until k fields are known, or all are.
pub fn split_to(
    work: &mut [u8],
    t: &[u64],
    kind: Kind,
    edition: Edition,
    line: Line,
    k: usize,
) -> Line
    requires { (base_end ≤ length work.old) × Placed line × Sized kind t.now × (k ≤ field_count) }
    ensures { (result.known < k → result.size < result.after) × (line.known ≤ k → result.known ≤ k)
        × (Splits edition.number t.now kind work.old work.new line result) }
{
    let mut r = line;
    while r.known < k {
        if r.size < r.after {
            return r;
        }
        r = split_one(work, t, kind, edition, r);
    }
    r
}

// Splits the rest off. A record that has more fields than there are entries loses those.
pub fn split_all(work: &mut [u8], t: &[u64], kind: Kind, edition: Edition, line: Line) -> Line
    requires { (base_end ≤ length work.old) × Placed line × Sized kind t.now × (line.known ≤ field_count) }
    ensures { SplitsAll edition.number t.now kind work.old work.new line result }
{
    let r = split_to(work, t, kind, edition, line, Edition::FIELDS);
    r.split(r.known, r.size + 1)
}
