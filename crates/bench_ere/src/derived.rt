// An ERE whose automata are derived once for many texts, for C: what `bench/match` measures.
ghost use Rattle.std.specs.Prelude.{◌≡◌, ◌^◌, ◌<◌, ◌≤◌, true, length};
ghost use Rattle.edition.specs.Limits.{text_bytes};
ghost use Rattle.ere_table.specs.Table.{table_words};
ghost use Rattle.ere_automaton.specs.Automaton.{Ranged};
ghost use Rattle.ere_automaton.specs.Follows.{SeekRanged};
ghost use Rattle.bench_ere.specs.Answer.{Tells};

use edition::Edition;

// The words of the automata.
const ROOM: usize = 8192;

// A match as one number: 16 bits of its start, and 10 of its length and 1.
const STARTS: usize = 65536;

const LAST: u64 = 65535;

const LENGTHS: u64 = 1024;

const LONGEST: usize = 1023;
// What is answered where an ERE has no automaton that fits.
const NONE: u64 = 1152921504606846976;
// The bytes of many texts at most.
const MOST: usize = 1073741824;

// Tells whether there is a match in a text, by an automaton: 1 or 0, 0 if the text is too long; or that there is no
// automaton.
#[unsafe(no_mangle)]
pub extern "C" fn derived_exists(table: &[u64], text: &[u8]) -> u64
    ensures { result < 2 → Tells table.now text.now result }
{
    if table.len() != ere_table::TABLE_WORDS {
        return 0;
    }
    if Edition::TEXT < text.len() {
        return 0;
    }
    let mut words = [0u16; ROOM];
    let Some(n) = ere_derive::derive(table, &mut words, ROOM) else {
        return NONE;
    };
    if ere_automaton::exists(&words[..n], text) {
        return 1;
    }
    0
}

// Returns a place and a length as one number.
fn packed(start: usize, length: usize) -> u64 {
    if start < STARTS {
        if length < LONGEST {
            return start as u64 * LENGTHS + length as u64 + 1;
        }
    }
    0
}

// Returns a match as one number; 0 if there is none. The C interface hands it out, and has no Option.
fn coded(f: Option<(usize, usize)>) -> u64 {
    match f {
        Some((start, length)) => packed(start, length),
        None => 0,
    }
}

// Tells whether a search may be made: the table has its size, the text is not too long, its place is one of a text, and
// no more than a byte is asked for.
fn may_seek(table: &[u64], rest: &[u8], at: u64, least: u64) -> bool
    ensures { result ≡ true
        → (length table.now ≡ table_words) × (length rest.now ≤ text_bytes) × (at < 65536) × (least ≤ 1) }
{
    table.len() == ere_table::TABLE_WORDS && rest.len() <= Edition::TEXT && at <= LAST && least <= 1
}

// Finds the leftmost longest match of at least `least` bytes by the table. `rest` is a text from place `at` on.
#[unsafe(no_mangle)]
pub extern "C" fn prepared_seek(table: &[u64], rest: &[u8], at: u64, least: u64) -> u64 {
    if !may_seek(table, rest, at, least) {
        return 0;
    }
    coded(ere_search::find_from(table, rest, at as usize, least as usize))
}

// Finds the match that `prepared_seek` finds, by automata; 0 if there are none.
#[unsafe(no_mangle)]
pub extern "C" fn derived_seek(table: &[u64], rest: &[u8], at: u64, least: u64) -> u64 {
    if !may_seek(table, rest, at, least) {
        return 0;
    }
    let mut words = [0u16; ROOM];
    let Some(n) = ere_derive::derive_both(table, &mut words, ROOM / 2) else {
        return NONE;
    };
    coded(ere_seek::seek(&words[..n], rest, at as usize, least as usize))
}

// Returns how many of some texts have a match. A text goes from where the one before it ends, the first from 0, to its
// own end, which is taken to lie between there and the end of all. A function for this and one for the sum of answers,
// and not one with a closure: a call of it for each text would be measured too.
fn count_matching(d: &[u16], texts: &[u8], ends: &[u64]) -> u64
    requires { (Ranged d.now) × (length texts.now < 2 ^ 63) }
{
    let mut count: u64 = 0;
    let mut from: usize = 0;
    for e in ends {
        let end = (*e as usize).clamp(from, texts.len());
        let yes = ere_automaton::exists(d, &texts[from..end]);
        count = count.wrapping_add(u64::from(yes));
        from = end;
    }
    count
}

// Counts the texts with a match, by one automaton.
#[unsafe(no_mangle)]
pub extern "C" fn texts_matching(table: &[u64], texts: &[u8], ends: &[u64]) -> u64 {
    if table.len() != ere_table::TABLE_WORDS {
        return 0;
    }
    if MOST < texts.len() {
        return 0;
    }
    let mut words = [0u16; ROOM];
    let Some(n) = ere_derive::derive(table, &mut words, ROOM) else {
        return NONE;
    };
    count_matching(&words[..n], texts, ends)
}

// Returns how many separators a text has: matches of at least a byte, one after the other.
fn count_parts(d: &[u16], text: &[u8]) -> u64
    requires { (SeekRanged d.now) × (length text.now < 2 ^ 62) }
{
    let mut count: u64 = 0;
    let mut at: usize = 0;
    while let Some((start, length)) = ere_seek::seek(d, &text[at..], at, 1) {
        count = count.wrapping_add(1);
        at = start + length;
    }
    count
}

// Returns the leftmost longest match of a text as one number, or how many separators it has.
fn answer(d: &[u16], text: &[u8], split: bool) -> u64
    requires { (SeekRanged d.now) × (length text.now < 2 ^ 62) }
{
    if split {
        return count_parts(d, text);
    }
    coded(ere_seek::seek(d, text, 0, 0))
}

// Returns the sum of the answers for some texts.
fn sum_answers(d: &[u16], texts: &[u8], ends: &[u64], split: bool) -> u64
    requires { (SeekRanged d.now) × (length texts.now < 2 ^ 62) }
{
    let mut sum: u64 = 0;
    let mut from: usize = 0;
    for e in ends {
        let end = (*e as usize).clamp(from, texts.len());
        let n = answer(d, &texts[from..end], split);
        sum = sum.wrapping_add(n);
        from = end;
    }
    sum
}

// Sums up, by both automata, the leftmost longest matches of the texts (0), or their separators (1).
#[unsafe(no_mangle)]
pub extern "C" fn texts_sought(table: &[u64], texts: &[u8], ends: &[u64], split: u64) -> u64 {
    if table.len() != ere_table::TABLE_WORDS {
        return 0;
    }
    if MOST < texts.len() {
        return 0;
    }
    let mut words = [0u16; ROOM];
    let Some(n) = ere_derive::derive_both(table, &mut words, ROOM / 2) else {
        return NONE;
    };
    sum_answers(&words[..n], texts, ends, split == 1)
}
