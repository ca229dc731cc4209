// A bound of the size of all fields joined, which is found faster than the size.
ghost use Rattle.std.specs.Prelude.{◌≡◌, true, List, ℕ, ◌+◌, ◌*◌, ◌≤◌, ◌<◌, length};
ghost use Rattle.edition.specs.Limits.{text_bytes, field_count};
ghost use Rattle.values.specs.Value.{text_of};
ghost use Rattle.run_room.specs.Layout.{slot_count, base_end};
ghost use Rattle.run_room.specs.Room.{entry_at, entries_to};
ghost use Rattle.run_parts.specs.Join.{new_fields, joined_text, texts_size};

use edition::Edition;
use run_room::Line;

// Returns a bound of the size of field i's text as it is: a number's digits are not counted.
fn entry_bound(work: &[u8], i: usize) -> usize
    requires { (base_end ≤ length work.now) × (i < field_count) }
    ensures { (result < 65536) × ((line : List ℕ) → length (text_of (entry_at line work.now i)) ≤ result) }
{
    let h = little_endian::get_word(work, run_room::ENTRIES + i * run_room::ENTRY);
    if h / 4294967296 % 256 == 1 {
        return decimals::DECIMAL_BYTES;
    }
    (h / 65536 % 65536) as usize
}

// Returns a bound of the sizes of the first n fields' texts.
fn entries_bound(work: &[u8], n: usize) -> usize
    requires { (base_end ≤ length work.now) × (n ≤ field_count) }
    ensures { (result ≤ n * 65536) × ((line : List ℕ) → texts_size (entries_to line work.now n) ≤ result) }
{
    let mut sum = 0;
    for i in 0..n {
        sum = sum + entry_bound(work, i);
    }
    sum
}

// Tells whether the fields, of which there are `count` with the value of slot v, surely fit a text with n bytes between
// them.
pub fn surely_fits(work: &[u8], line: Line, v: usize, count: usize, n: usize) -> bool
    requires { (base_end ≤ length work.now) × (line.known ≤ count) × (count ≤ field_count) × (v < slot_count)
        × (n ≤ text_bytes) }
    ensures { result ≡ true → (k : ℕ) (b : List ℕ) → length b ≡ n
        → length (joined_text b (new_fields work.now line k v count)) ≤ text_bytes }
{
    let size = run_room::text_size(work, v) + decimals::DECIMAL_BYTES;
    let rest = entries_bound(work, line.known);
    rest + size + count * n <= Edition::TEXT
}
