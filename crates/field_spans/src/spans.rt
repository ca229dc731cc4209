// The spans of all fields of a record, one field after the other.
ghost use Rattle.std.specs.Prelude.{◌≡◌, ◌≤◌, length};
ghost use Rattle.edition.specs.Limits.{field_count};
ghost use Rattle.splitting.specs.Separator.{Separator};
ghost use Rattle.splitting.specs.Field.{span, fields_of};
ghost use Rattle.separators.specs.Kinds.{Sized, Means};
ghost use Rattle.field_spans.specs.Spread.{with_span, with_spans, up_to_many};

use edition::Edition;
use separators::Kind;

// Writes the span of field k, counted from 0, to a room for the fields from `first` on, if it has words for it.
fn put_span(spans: &mut [usize], first: usize, k: usize, start: usize, size: usize)
    requires { k ≤ field_count }
    ensures { spans.new ≡ with_span spans.old first k (span start size) }
{
    if spans.len() < 2 {
        return;
    }
    if Edition::FIELDS <= k {
        return;
    }
    if k < first {
        return;
    }
    let i = 2 * (k - first);
    if i + 1 < spans.len() {
        spans[i] = start;
        spans[i + 1] = size;
    }
}

// Writes the spans of the fields from `first` on, as many as the room has words for, and counts all fields, up to one
// more than a record may have.
pub fn split_into(
    text: &[u8],
    kind: Kind,
    edition: Edition,
    t: &[u64],
    first: usize,
    spans: &mut [usize],
) -> usize
    requires { Sized kind t.now }
    ensures { (s : Separator) → Means edition.number t.now kind s
        → (result ≡ up_to_many (length (fields_of text.now s)))
        × (spans.new ≡ with_spans spans.old first 0 (fields_of text.now s)) }
{
    if text.len() == 0 {
        return 0;
    }
    let mut at: usize = 0;
    for n in 0..Edition::FIELDS + 1 {
        let Some(f) = separators::next_field(text, kind, edition, t, at) else {
            return n;
        };
        put_span(spans, first, n, f.start, f.size);
        at = f.after;
    }
    Edition::FIELDS + 1
}
