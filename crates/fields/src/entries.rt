// Splitting a record, and one field of it.
ghost use Rattle.std.specs.Prelude.{◌≡◌, ◌<◌, ◌-◌, length};
ghost use Rattle.edition.specs.Limits.{first_edition};
ghost use Rattle.ere_table.specs.Table.{table_words};
ghost use Rattle.splitting.specs.Separator.{separator_of};
ghost use Rattle.splitting.specs.Splitting.{separated, split_of, count_of, field_of, text_of};
ghost use Rattle.fields.specs.Answer.{counting_of, located_count, located_in, place_of};
ghost use Rattle.field_spans.specs.Spread.{spans_of, room_of};

use edition::Edition;
use separators::Kind;

// Why a record has no fields.
#[derive(Clone, Copy, PartialEq, Eq)]
pub enum SplitError {
    LongRecord,
    BadSeparator,
    ManyFields,
}

// How many fields a record has, and where one of them is in it.
#[derive(Drop)]
pub struct Located {
    pub count: usize,
    pub start: usize,
    pub size: usize,
}

// Splits a record that isn't too long, with a room for the fields from `first` on. The table is for a separator that is
// an ERE.
fn split_with(
    record: &[u8],
    separator: &[u8],
    edition: Edition,
    t: &mut [u64],
    first: usize,
    spans: &mut [usize],
) -> Result<usize, SplitError>
    requires { 1 < length separator.now → length t.old ≡ table_words }
    ensures { (counting_of result
        ≡ count_of (separated «record».now (separator_of edition.number separator.now)))
        × (spans.new
        ≡ spans_of spans.old first «record».now
        (separator_of edition.number separator.now)) }
{
    let kind = separators::kind_of(separator, edition, t);
    if let Kind::Refused = kind {
        return Err(SplitError::BadSeparator);
    }
    let n = field_spans::split_into(record, kind, edition, t, first, spans);
    if Edition::FIELDS < n {
        return Err(SplitError::ManyFields);
    }
    Ok(n)
}

// Splits a record, by the first edition. A separator of one byte needs no table, and making one takes longer than such
// a split.
fn split_record(
    record: &[u8],
    separator: &[u8],
    first: usize,
    spans: &mut [usize],
) -> Result<usize, SplitError>
    ensures { (counting_of result ≡ count_of (split_of first_edition separator.now «record».now))
        × (spans.new
        ≡ room_of first_edition separator.now «record».now first spans.old) }
{
    let edition = Edition {
        number: Edition::FIRST,
    };
    if Edition::RECORD < record.len() {
        return Err(SplitError::LongRecord);
    }
    if 1 < separator.len() {
        let mut t = [0u64; ere_table::TABLE_WORDS];
        return split_with(record, separator, edition, &mut t, first, spans);
    }
    let mut t = [0u64; 1];
    split_with(record, separator, edition, &mut t, first, spans)
}

// Splits a record: the number of its fields, or why it is refused.
pub fn split(record: &[u8], separator: &[u8]) -> Result<usize, SplitError>
    ensures { counting_of result ≡ count_of (split_of first_edition separator.now «record».now) }
{
    let mut none = [0usize; 1];
    split_record(record, separator, 0, &mut none)
}

// Returns the span of field k beside the number of fields, or why the record is refused. Fields are counted from 1
// here, so the room is for the one before k alone.
pub fn locate(record: &[u8], separator: &[u8], k: usize) -> Result<Located, SplitError>
    ensures { (located_count result
        ≡ count_of (split_of first_edition separator.now «record».now))
        × (located_in (length «record».now) result ≡ field_of first_edition separator.now «record».now k) }
{
    let mut spans = [0usize; 2];
    let end = record.len();
    let n = split_record(record, separator, k.saturating_sub(1), &mut spans)?;
    if k == 0 {
        return Ok(Located {
            count: n,
            start: 0,
            size: end,
        });
    }
    if k <= n {
        return Ok(Located {
            count: n,
            start: spans[0],
            size: spans[1],
        });
    }
    Ok(Located {
        count: n,
        start: end,
        size: 0,
    })
}

// Returns field k of a record, as a part of the record.
pub fn field<'a, 'b>(record: &'a [u8], separator: &'b [u8], k: usize) -> &'a [u8]
    ensures { (result.now
        ≡ text_of «record».now (field_of first_edition separator.now «record».now k))
        × (result.ref_ptr
        ≡ place_of «record».entry.ref_ptr (field_of first_edition separator.now «record».now k)) }
{
    match locate(record, separator, k) {
        Ok(f) => &record[f.start..f.start + f.size],
        Err(_) => &record[record.len()..],
    }
}
