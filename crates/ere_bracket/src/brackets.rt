// The items of a bracket, and the bracket.
//
// The loop's invariant (`Leads` of specs/Items.antt): the class of the items so far, with the bytes of those that the
// definition reads from `at` on, is the class of all; if none follow, the bracket ended there, or the definition
// reads none. A step that doesn't refuse goes on by a byte at least.
ghost use Rattle.std.specs.Prelude.{◌≡◌, true, false, ◌<◌, length, drop};
ghost use Rattle.ere_grammar.specs.Read.{read_member, read_bracket, range_to, after_byte, last_hyphen};
ghost use Rattle.ere_byte_set.specs.Words.{no_byte};
ghost use Rattle.ere_bracket.specs.Items.{items_of, worded, Leads, Ended};
ghost use Rattle.ere_bracket.specs.Answer.{ClassReads};

use ere_byte_set::classes;
use ere_member::members;

// The bytes that what was read accepts, and the index after it.
#[derive(Drop)]
pub struct Bracket {
    pub next: usize,
    pub words: [u64; 4],
}

// A step in which items were read, with the bytes of all items so far: more may follow, or the bracket ended.
#[derive(Drop)]
enum Step {
    GoesOn(Bracket),
    Closed(Bracket),
}

// Reads the rest of a range from the byte low, from the index after its `-` on.
fn range_to(ere: &[u8], at: usize, low: u8, words: [u64; 4]) -> Option<Step>
    ensures { Leads result ere.now at
        (worded words (range_to (items_of false) low (read_member (drop at ere.now)))) }
{
    let (high, next) = members::read_member(ere, at)?;
    if high < low {
        return None;
    }
    let words = classes::with_range(words, low, high);
    Some(Step::GoesOn(Bracket { next, words }))
}

// Reads a byte or a range, from an index on.
fn item(ere: &[u8], at: usize, words: [u64; 4]) -> Option<Step>
    ensures { Leads result ere.now at
        (worded words (after_byte (items_of false) (read_member (drop at ere.now)))) }
{
    let (b, next) = members::read_member(ere, at)?;
    if members::joins(ere, next) {
        return range_to(ere, next + 1, b, words);
    }
    let words = classes::with_byte(words, b);
    Some(Step::GoesOn(Bracket { next, words }))
}

// Reads a `-` before an index, which has to be the last item.
fn last_hyphen(ere: &[u8], at: usize, words: [u64; 4]) -> Option<Step>
    ensures { Leads result ere.now at (worded words (last_hyphen (drop at ere.now))) }
{
    if !members::stands(ere, at, b']') {
        return None;
    }
    let words = classes::with_byte(words, b'-');
    Some(Step::Closed(Bracket {
        next: at + 1,
        words,
    }))
}

// Reads one item, or the bracket's end, from an index on; `first` where no item is before it.
fn turn(ere: &[u8], at: usize, first: bool, words: [u64; 4]) -> Option<Step>
    requires { at < length ere.now }
    ensures { Leads result ere.now at (worded words (items_of first (drop at ere.now))) }
{
    if first {
        return item(ere, at, words);
    }
    if ere[at] == b']' {
        return Some(Step::Closed(Bracket {
            next: at + 1,
            words,
        }));
    }
    if ere[at] == b'-' {
        return last_hyphen(ere, at + 1, words);
    }
    item(ere, at, words)
}

// Reads all items from an index on, and the bracket's end.
fn read_items(ere: &[u8], from: usize) -> Option<Bracket>
    ensures { Ended result ere.now from (worded no_byte (items_of true (drop from ere.now))) }
{
    let mut at = from;
    let mut first = true;
    let mut words = classes::empty();
    while at < ere.len() {
        match turn(ere, at, first, words)? {
            Step::Closed(all) => return Some(all),
            Step::GoesOn(so_far) => {
                at = so_far.next;
                words = so_far.words;
                first = false;
            }
        }
    }
    None
}

// Reads the bracket whose `[` is before an index.
pub fn read_bracket(ere: &[u8], at: usize) -> Option<Bracket>
    ensures { ClassReads result ere.now at (read_bracket (drop at ere.now)) }
{
    if members::stands(ere, at, b'^') {
        let items = read_items(ere, at + 1)?;
        let words = classes::flipped(items.words);
        return Some(Bracket {
            next: items.next,
            words,
        });
    }
    read_items(ere, at)
}
