// From a place in a record to the next field and the place after it.
ghost use Rattle.std.specs.Prelude.{◌≡◌, ◌+◌, ◌≤◌, length, drop};
ghost use Rattle.lists.specs.Elements.{leading};
ghost use Rattle.ere_meaning.specs.Tree.{Class, Ere};
ghost use Rattle.ere_table.specs.Table.{table_words};
ghost use Rattle.ere.specs.Answer.{Serves};
ghost use Rattle.splitting.specs.Separator.{Separator, blanks, blank, byte, ere};
ghost use Rattle.splitting.specs.Field.{Goes, is_in, next_field};
ghost use Rattle.separators.specs.Kinds.{Sized, Means, next_of};

use crate::kinds::Kind;
use edition::Edition;

// A field, and the place from which on the one after it is looked for.
#[derive(Drop)]
pub struct Step {
    pub start: usize,
    pub size: usize,
    pub after: usize,
}

// Returns the end of the run of blanks from `at` on, or, if `blank` is false, of the run of other bytes.
fn run_end(text: &[u8], edition: Edition, blank: bool, at: usize) -> usize
    requires { at ≤ length text.now }
    ensures { result ≡ at + leading (is_in «blank» (blanks edition.number)) (drop at text.now) }
{
    if blank {
        return lanes::past_two(text, at, b' ', b'\t');
    }
    lanes::first_of_two(text, at, b' ', b'\t')
}

// Returns the next field between blanks.
fn next_word(text: &[u8], edition: Edition, at: usize) -> Option<Step>
    requires { at ≤ length text.now }
    ensures { (Goes at (length text.now) (next_of result))
        × (next_of result ≡ next_field text.now (blank (blanks edition.number)) at) }
{
    let start = run_end(text, edition, true, at);
    if text.len() <= start {
        return None;
    }
    // The byte at `start` is no blank.
    let end = run_end(text, edition, false, start + 1);
    Some(Step {
        start,
        size: end - start,
        after: end,
    })
}

// Returns the next field up to the byte b.
fn next_by_byte(text: &[u8], b: u8, at: usize) -> Step
    requires { at ≤ length text.now }
    ensures { (Goes at (length text.now) (next_of (Some result)))
        × (next_of (Some result) ≡ next_field text.now (byte b) at) }
{
    let end = lanes::first_byte_from(text, at, b);
    Step {
        start: at,
        size: end - at,
        after: end + 1,
    }
}

// Returns the next field up to a nonempty match of the table's ERE.
fn next_by_pattern(t: &[u64], text: &[u8], at: usize) -> Step
    requires { (length t.now ≡ table_words) × (at ≤ length text.now) }
    ensures { (Goes at (length text.now) (next_of (Some result)))
        × ((e : Ere Class) → Serves t.now e → next_of (Some result) ≡ next_field text.now (ere e) at) }
{
    let end = text.len();
    match ere_search::find_from(t, &text[at..], at, 1) {
        Some((s, n)) => Step {
            start: at,
            size: s - at,
            after: s + n,
        },
        None => Step {
            start: at,
            size: end - at,
            after: end + 1,
        },
    }
}

// Returns the next field from the place `at` on, if there is one. Whatever the table has, the field is in the text, and
// the place after it moves on.
pub fn next_field(text: &[u8], kind: Kind, edition: Edition, t: &[u64], at: usize) -> Option<Step>
    requires { Sized kind t.now }
    ensures { (Goes at (length text.now) (next_of result))
        × ((s : Separator) → Means edition.number t.now kind s
        → next_of result ≡ next_field text.now s at) }
{
    if text.len() < at {
        return None;
    }
    match kind {
        Kind::Blank => next_word(text, edition, at),
        Kind::Byte(b) => Some(next_by_byte(text, b, at)),
        Kind::Pattern => Some(next_by_pattern(t, text, at)),
        Kind::Refused => None,
    }
}
