// Field entries: start, size and kind in one word, then a number.
ghost use Rattle.std.specs.Prelude.{◌≡◌, ◌+◌, ◌*◌, ◌≤◌, ◌<◌, min, length};
ghost use Rattle.edition.specs.Limits.{field_count};
ghost use Rattle.run_room.specs.Layout.{base_end};
ghost use Rattle.run_room.specs.Room.{Placed};
ghost use Rattle.run_room.specs.Held.{Entered, Reads};

use crate::layout::{ENTRIES, ENTRY};
use crate::lines::Line;

// A field: its kind, where in the record it starts, its size, and its number if it is one.
#[derive(Drop)]
pub struct Entry {
    pub kind: u8,
    pub start: usize,
    pub size: usize,
    pub number: u64,
}

// Writes entry k.
pub fn put_entry(work: &mut [u8], k: usize, e: Entry)
    requires { (base_end ≤ length work.old) × (k < field_count) × (e.start < 65536) × (e.size < 65536) }
    ensures { Entered work.old work.new k e }
{
    let at = ENTRIES + k * ENTRY;
    little_endian::put_word(
        work,
        at,
        e.start as u64 + 65536 * e.size as u64 + 4294967296 * e.kind as u64,
    );
    little_endian::put_word(work, at + 8, e.number);
}

// Reads entry k, whose span is clipped to the record.
pub fn read_entry(work: &[u8], line: Line, k: usize) -> Entry
    requires { (base_end ≤ length work.now) × Placed line × (k < field_count) }
    ensures { Reads work.now line k result }
{
    let at = ENTRIES + k * ENTRY;
    let h = little_endian::get_word(work, at);
    let w = little_endian::get_word(work, at + 8);
    let start = ((h % 65536) as usize).min(line.size);
    let size = ((h / 65536 % 65536) as usize).min(line.size - start);
    Entry {
        kind: (h / 4294967296 % 256) as u8,
        start,
        size,
        number: w,
    }
}
