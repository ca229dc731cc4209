// Whether there is a match at all, by one walk from all starts at once.
//
// The invariant at place i: no match ends before i, and `live` is the union, over the starts before i, of the places
// that may come next at i. So each byte is looked at once, however the starts overlap.
ghost use Rattle.std.specs.Prelude.{◌≡◌, ◌+◌, ◌≤◌, ◌<◌, ◌^◌, length, drop};
ghost use Rattle.lists.specs.Elements.{leading};
ghost use Rattle.ere_table.specs.Table.{table_words, row, join};
ghost use Rattle.ere_search.specs.Walk.{entry_row};
ghost use Rattle.ere_exists.specs.Any.{Exists, passes, no_start};

// Returns the set s with the places at which a match that starts at i begins.
fn with_entry(t: &[u64], s: [u64; 3], i: usize) -> [u64; 3]
    requires { length t.now ≡ table_words }
    ensures { result ≡ join s (row t.now (entry_row i)) }
{
    if i == 0 {
        return ere_search::with_row(s, t, 0);
    }
    ere_search::with_row(s, t, 1)
}

// Tells whether the set has nothing in it, no accept bit either, and no match begins with the byte b.
fn passed(t: &[u64], s: [u64; 3], b: u8, empty: bool) -> bool
    requires { length t.now ≡ table_words }
    ensures { result ≡ passes t.now s b empty }
{
    if ere_search::dead(s) {
        if s[2] == 0 {
            return !ere_search::may_begin(t, b, empty);
        }
    }
    false
}

// Returns the first place from `from` on whose byte may begin a match, or the text's end: an inner loop over the bytes
// that begin none. It is a loop by itself, and not one with that of `ere_search::find_from`, which calls the walk from
// each such place and has no place to hand back.
fn next_start(t: &[u64], text: &[u8], from: usize, empty: bool) -> usize
    requires { (length t.now ≡ table_words) × (from ≤ length text.now) }
    ensures { result ≡ from + leading (no_start t.now empty) (drop from text.now) }
{
    for i in from..text.len() {
        if ere_search::may_begin(t, text[i], empty) {
            return i;
        }
    }
    text.len()
}

// Tells whether a match is in the text. `live` is what may come next at i after the starts before i: each byte is
// looked at once. No `for`: i goes on to where `next_start` says.
pub fn exists(t: &[u64], text: &[u8]) -> bool
    requires { (length t.now ≡ table_words) × (length text.now < 2 ^ 63) }
    ensures { Exists t.now text.now result }
{
    let empty = ere_search::may_be_empty(t, 0);
    let mut live = [0u64; 3];
    let mut i: usize = 0;
    while i < text.len() {
        if passed(t, live, text[i], empty) {
            live = [0u64; 3];
            i = next_start(t, text, i + 1, empty);
        } else {
            let all = with_entry(t, live, i);
            if ere_search::stops(all, false) {
                return true;
            }
            let next = ere_search::step(t, all, text[i]);
            live = next;
            i += 1;
        }
    }
    let all = with_entry(t, live, i);
    ere_search::stops(all, true)
}
