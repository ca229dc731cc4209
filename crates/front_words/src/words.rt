// The next word of a block, and the word of a number.
ghost use Rattle.std.specs.Prelude.{◌≤◌, ◌<◌, length};
ghost use Rattle.front_words.specs.Walk.{Ends, SpanOf};

// Where a word ends, and where the next one starts.
#[derive(Clone, Copy)]
pub struct WordEnd {
    pub end: usize,
    pub next: usize,
}

// The bytes from `start` to `end`.
#[derive(Clone, Copy)]
pub struct Span {
    pub start: usize,
    pub end: usize,
}

// Returns the end of the word that starts at a place.
pub fn word_at(block: &[u8], at: usize) -> WordEnd
    requires { at < length block.now }
    ensures { Ends block.now at result }
{
    let end = at + buffer::first_byte(&block[at..], 0);
    if end < block.len() {
        return WordEnd { end, next: end + 1 };
    }
    WordEnd { end, next: end }
}

// Returns the word that starts at a place, the empty one where the block ends there.
fn span_at(block: &[u8], at: usize) -> Span
    requires { at ≤ length block.now }
    ensures { SpanOf block.now at 0 result }
{
    if block.len() <= at {
        return Span { start: at, end: at };
    }
    let w = word_at(block, at);
    Span {
        start: at,
        end: w.end,
    }
}

// Returns word k, from 0, the empty one where there are fewer.
pub fn find_word(block: &[u8], k: usize) -> Span
    ensures { SpanOf block.now 0 k result }
{
    let mut at: usize = 0;
    for _passed in 0..k {
        if block.len() <= at {
            return Span { start: at, end: at };
        }
        let w = word_at(block, at);
        at = w.next;
    }
    span_at(block, at)
}
