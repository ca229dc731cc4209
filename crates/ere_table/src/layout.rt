// The table's words, and sets of places.
ghost use Rattle.std.specs.Prelude.{◌≡◌, ◌<◌};
ghost use Rattle.ere_table.specs.Table.{set_bits, mem};

use edition::Edition;

// Places of an ERE.
pub const PLACES: usize = Edition::ERE_PLACES;
// Words of all rows: row 0 where a match starts at the text's start, row 1 where elsewhere, row p + 2 after the place
// p.
pub const ROWS: usize = 3 * (PLACES + 2);
// Words of all classes, which come after the rows: of the place p from ROWS + 4 * p on.
pub const CLASSES: usize = 4 * PLACES;
// After the classes: the bytes that a match of at least a byte can begin with, in four words.
pub const BEGIN: usize = ROWS + CLASSES;
// Then a word that is not 0 if a match may be empty.
pub const EMPTY: usize = BEGIN + 4;
// Words of a table.
pub const TABLE_WORDS: usize = ROWS + CLASSES + 5;

// The accept bits of a set's third word: a walk may stop before the text's end (1) and at it (2).
pub const ACCEPT_BITS: u64 = 3;
// The set of both accept bits: a walk may stop anywhere.
pub const ACCEPT: [u64; 3] = [0, 0, ACCEPT_BITS];
// The set of one accept bit: a walk may stop at the text's end only.
pub const ACCEPT_AT_END: [u64; 3] = [0, 0, 2];
// The set with nothing in it.
pub const NOTHING: [u64; 3] = [0, 0, 0];

// Tells whether q is in the set.
pub fn has(s: [u64; 3], q: usize) -> bool
    requires { q < set_bits }
    ensures { result ≡ mem s q }
{
    (s[q / 64] >> (q % 64)) % 2 == 1
}
