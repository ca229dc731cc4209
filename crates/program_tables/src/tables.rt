// Tables of entries: two words each, by first use.
ghost use Rattle.std.specs.Prelude.{◌≡◌, cond, ◌+◌, ◌*◌, ◌≤◌, ◌<◌, length, eqb};
ghost use Rattle.program_numbering.specs.Names.{number_of};
ghost use Rattle.program_numbering.specs.Numbering.{same_constant};
ghost use Rattle.program_tables.specs.Tables.{entry_in, meant, InsideText, AllInside, entries_from, with_entry};

use crate::texts;

// An entry: a number, where `stop` is 0; or the text from place `value` to place `stop`.
#[derive(Clone, Copy)]
pub struct Entry {
    pub value: usize,
    pub stop: usize,
}

// Returns entry k of a table.
pub fn entry_in(table: &[u64], k: usize) -> Entry
    requires { 2 * k + 1 < length table.now }
    ensures { result ≡ entry_in table.now k }
{
    Entry {
        value: table[2 * k] as usize,
        stop: table[2 * k + 1] as usize,
    }
}

// Tells whether two entries are equal: the same number, or texts with the same value.
fn same_entry(s: &[u8], a: Entry, b: Entry, escapes: bool) -> bool
    requires { InsideText s.now a × InsideText s.now b }
    ensures { result ≡ same_constant (meant s.now escapes a) (meant s.now escapes b) }
{
    if a.stop == 0 {
        return (b.stop == 0) & (a.value == b.value);
    }
    if b.stop == 0 {
        return false;
    }
    texts::same_value(s, a.value, a.stop, b.value, b.stop, escapes)
}

// Returns the number of the first of n entries that is equal to e, or n.
fn find(s: &[u8], table: &[u64], n: usize, e: Entry, escapes: bool) -> usize
    requires { (2 * n ≤ length table.now) × AllInside s.now table.now n × InsideText s.now e }
    ensures { result ≡ number_of same_constant (entries_from s.now escapes table.now 0 n)
        (meant s.now escapes e) }
{
    for k in 0..n {
        if same_entry(s, e, entry_in(table, k), escapes) {
            return k;
        }
    }
    n
}

// Stores entry n, if there is room.
fn put_entry(table: &mut [u64], n: usize, e: Entry)
    requires { 2 * n ≤ length table.old }
    ensures { table.new ≡ with_entry table.old n e }
{
    if 2 * n + 1 < table.len() {
        table[2 * n] = e.value as u64;
        table[2 * n + 1] = e.stop as u64;
    }
}

// Returns the number of an entry in a table of n; a new one is stored, if there is room.
pub fn enter(s: &[u8], table: &mut [u64], n: usize, e: Entry, escapes: bool) -> usize
    requires { (2 * n ≤ length table.old) × AllInside s.now table.old n × InsideText s.now e }
    ensures { (result ≡ number_of same_constant (entries_from s.now escapes table.old 0 n)
        (meant s.now escapes e))
        × (table.new ≡ cond (eqb result n) (with_entry table.old n e) table.old) }
{
    let k = find(s, table, n, e, escapes);
    if k == n {
        put_entry(table, n, e);
    }
    k
}
