// Print: values with OFS between them, then ORS, whole or not at all.
ghost use Rattle.std.specs.Prelude.{◌≡◌, ◌++◌, ◌+◌, ◌*◌, ◌≤◌, ◌<◌, length};
ghost use Rattle.splitting.specs.Separator.{Separator};
ghost use Rattle.edition.specs.Limits.{text_bytes};
ghost use Rattle.buffer.specs.Parts.{put};
ghost use Rattle.values.specs.Value.{text_of};
ghost use Rattle.run_room.specs.Layout.{slot_count, slots_end};
ghost use Rattle.run_room.specs.Room.{slot_at, slots_from, store_of};
ghost use Rattle.run_room.specs.Held.{Did};
ghost use Rattle.run_room.specs.declared.lines.Line.{Line};
ghost use Rattle.semantics.specs.World.{World};
ghost use Rattle.semantics.specs.Operations.{print_values};
ghost use Rattle.run_lines.specs.Records.{ofs_slot};
ghost use Rattle.run_print.specs.Prints.{InSlot, Kept, ofs_of, line_from, Writes, written, PrintedBy};

// The slot of ORS.
pub const ORS: usize = run_room::OPERANDS + 4;

// Returns the length of the texts of n values, with `between` bytes between two.
fn line_length(work: &mut [u8], first: usize, n: usize, between: usize) -> usize
    requires { (slots_end ≤ length work.old) × (0 < n) × (first + n ≤ slot_count)
        × InSlot work.old ofs_slot between }
    ensures { Kept work.old work.new × (result ≡ length (line_from first n work.old))
        × (result ≤ n * (text_bytes + text_bytes)) }
{
    let mut sum = run_room::show(work, first);
    for i in 1..n {
        sum = sum + between + run_room::show(work, first + i);
    }
    sum
}

// Writes n bytes of the text of slot i.
fn write_text(work: &[u8], i: usize, n: usize, out: &mut [u8], at: usize) -> usize
    requires { (slots_end ≤ length work.now) × (i < slot_count) × InSlot work.now i n
        × (at + n ≤ length out.old) }
    ensures { (out.new ≡ put out.old at (text_of (slot_at work.now i)))
        × (result ≡ at + n) }
{
    let s = i * run_room::SLOT + run_room::HEAD;
    let e = s + n;
    block_copy::copy(out, at, &work[s..e]);
    at + n
}

// Writes OFS and then a value.
fn write_next(work: &mut [u8], i: usize, between: usize, out: &mut [u8], at: usize) -> usize
    requires { (slots_end ≤ length work.old) × (i < slot_count) × InSlot work.old ofs_slot between
        × (at + (between + length (text_of (slot_at work.old i))) ≤ length out.old) }
    ensures { Kept work.old work.new
        × (out.new
        ≡ put out.old at (ofs_of work.old ++ text_of (slot_at work.old i)))
        × (result ≡ at + (between + length (text_of (slot_at work.old i)))) }
{
    let from = write_text(work, run_separator::OFS, between, out, at);
    let n = run_room::show(work, i);
    write_text(work, i, n, out, from)
}

// Writes n values with OFS between them.
fn write_values(work: &mut [u8], first: usize, n: usize, between: usize, out: &mut [u8]) -> usize
    requires { (slots_end ≤ length work.old) × (0 < n) × (first + n ≤ slot_count) × InSlot work.old ofs_slot between
        × (length (line_from first n work.old) ≤ length out.old) }
    ensures { Kept work.old work.new
        × (out.new ≡ put out.old 0 (line_from first n work.old))
        × (result ≡ length (line_from first n work.old)) }
{
    let m = run_room::show(work, first);
    let mut at = write_text(work, first, m, out, 0);
    for i in 1..n {
        at = write_next(work, first + i, between, out, at);
    }
    at
}

// Prints n values from slot `first` on, of which there is at least one, to the output that is left. Returns how many
// bytes were written; or, where the output is too small, how many more it would need.
pub fn print(work: &mut [u8], first: usize, n: usize, out: &mut [u8]) -> Result<usize, usize>
    requires { (slots_end ≤ length work.old) × (0 < n) × (first + n ≤ slot_count) }
    ensures { (l : Line) → Did work.old l work.new l
        ((length work.new ≡ length work.old)
        × (length out.new ≡ length out.old)
        × (written result ≤ length out.old))
        (((s : Separator) → store_of work.new l s ≡ store_of work.old l s)
        × ((w : World) → Writes work.old out.old w
        → PrintedBy w out.old out.new result
        (print_values (slots_from first n work.old) w))) }
{
    let between = run_room::show(work, run_separator::OFS);
    let end = run_room::show(work, ORS);
    let size = line_length(work, first, n, between) + end;
    if out.len() < size {
        return Err(size - out.len());
    }
    let at = write_values(work, first, n, between, out);
    write_text(work, ORS, end, out, at);
    Ok(size)
}
