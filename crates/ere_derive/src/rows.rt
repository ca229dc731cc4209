// The rows of the states.
ghost use Rattle.std.specs.Prelude.{◌≡◌, ℕ, ◌+◌, ◌*◌, ◌%◌, ◌≤◌, ◌<◌, length, get_or};
ghost use Rattle.ere_table.specs.Table.{table_words, row};
ghost use Rattle.ere_automaton.specs.Layout.{rows_at};
ghost use Rattle.ere_derive.specs.Layout.{PutEntry, PutRow, PutRows, Begins};

use crate::layout::ROWS;

// Stores at p the state after the set s and the byte b; gives how many states there are then, if there is room.
fn put_entry(
    t: &[u64],
    mode: u64,
    b: u8,
    sets: &mut [u64],
    count: usize,
    most: usize,
    s: [u64; 3],
    stride: usize,
    p: usize,
    d: &mut [u16],
) -> Option<usize>
    requires { (length t.now ≡ table_words) × (count ≤ most) × (most ≤ 96) × (length sets.old ≡ 288)
        × (rows_at + stride * most ≤ length d.old) × (length d.old < 65536) × (p < length d.old) }
    ensures { PutEntry mode t.now sets.old count most stride s b p d.old result
        sets.new d.new }
{
    let e = ere_sets::enter(sets, count, most, ere_sets::change(t, mode, s, b))?;
    d[p] = (ROWS + stride * e.number) as u16;
    Some(e.count)
}

// Returns the accept bits of the set s.
fn end_mark(s: [u64; 3]) -> u16
    ensures { result ≡ get_or s 2 0 % 4 }
{
    (s[2] % 4) as u16
}

// Stores the row of the set s at p; gives how many states there are then, if there is room.
fn put_row(
    t: &[u64],
    mode: u64,
    bytes: &[u8],
    k: usize,
    sets: &mut [u64],
    count: usize,
    most: usize,
    s: [u64; 3],
    stride: usize,
    p: usize,
    d: &mut [u16],
) -> Option<usize>
    requires { (length t.now ≡ table_words) × (k ≤ length bytes.now) × (count ≤ most) × (most ≤ 96)
        × (length sets.old ≡ 288) × (rows_at + stride * most ≤ length d.old) × (length d.old < 65536)
        × (p + k < length d.old) }
    ensures { PutRow mode t.now bytes.now k sets.old count most stride s p
        d.old result sets.new d.new }
{
    let mut n = count;
    for e in 0..k {
        n = put_entry(t, mode, bytes[e], sets, n, most, s, stride, p + e, d)?;
    }
    d[p + k] = end_mark(s);
    Some(n)
}

// Stores the rows of all states; gives how many there are, if there is room.
pub fn put_rows(
    t: &[u64],
    mode: u64,
    bytes: &[u8],
    k: usize,
    sets: &mut [u64],
    count: usize,
    most: usize,
    stride: usize,
    d: &mut [u16],
) -> Option<usize>
    requires { (length t.now ≡ table_words) × (k ≤ length bytes.now) × (count ≤ most) × (most ≤ 96)
        × (length sets.old ≡ 288) × (rows_at + stride * most ≤ length d.old) × (length d.old < 65536)
        × (k < stride) }
    ensures { PutRows mode t.now bytes.now k sets.old count most stride
        d.old result sets.new d.new }
{
    let mut n = count;
    let mut i: usize = 0;
    // No `for`: the rows that are stored enter sets, so n grows.
    while i < n {
        let s = ere_classes::set_at(sets, i);
        n = put_row(
            t,
            mode,
            bytes,
            k,
            sets,
            n,
            most,
            s,
            stride,
            ROWS + stride * i,
            d,
        )?;
        i += 1;
    }
    Some(n)
}

// How many states an automaton begins with, and their numbers.
#[derive(Drop)]
pub struct Begun {
    pub count: usize,
    pub accepted: usize,
    pub later: usize,
    pub first: usize,
}

// Enters the sets that an automaton begins with, if there is room.
pub fn begin(t: &[u64], mode: u64, sets: &mut [u64], most: usize) -> Option<Begun>
    requires { (length t.now ≡ table_words) × (most ≤ 96) × (length sets.old ≡ 288) }
    ensures { Begins mode t.now sets.old most result sets.new }
{
    let a = ere_sets::enter(sets, 0, most, ere_sets::last(mode))?;
    let l = ere_sets::enter(sets, a.count, most, ere_sets::later(t, mode))?;
    let f = ere_sets::enter(sets, l.count, most, ere_sets::first(t, mode))?;
    Some(Begun {
        count: f.count,
        accepted: a.number,
        later: l.number,
        first: f.number,
    })
}
