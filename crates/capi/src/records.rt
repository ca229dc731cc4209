// The fields of a record, for C.
ghost use Rattle.std.specs.Prelude.{◌≡◌};
ghost use Rattle.edition.specs.Limits.{first_edition};
ghost use Rattle.splitting.specs.Field.{span};
ghost use Rattle.splitting.specs.Splitting.{split_of, counting, count_of, field_of};

// Splits a record, by the first edition.
pub fn flowawk_split(record: &[u8], fs: &[u8], count: &mut u64) -> u64
    ensures { counting result count.new
        ≡ count_of (split_of first_edition fs.now «record».now) }
{
    capi_texts::split_record(record, fs, count)
}

// Finds field k of a record, by the first edition: the outcome of splitting it, and the field's place and length.
pub fn flowawk_field(record: &[u8], fs: &[u8], k: u64, start: &mut u64, length: &mut u64) -> u64
    ensures { (result ≡ (count_of (split_of first_edition fs.now «record».now)).outcome)
        × (span start.new length.new
        ≡ field_of first_edition fs.now «record».now k) }
{
    capi_texts::find_field(record, fs, k, start, length)
}
