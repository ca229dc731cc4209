// The fields of a record.
ghost use Rattle.std.specs.Prelude.{◌≡◌};
ghost use Rattle.edition.specs.Limits.{first_edition};
ghost use Rattle.splitting.specs.Field.{span};
ghost use Rattle.splitting.specs.Splitting.{split_of, counting, count_of, field_of};

// Splits a record, by the first edition.
pub fn split_record(record: &[u8], fs: &[u8], count: &mut u64) -> u64
    ensures { counting result count.new
        ≡ count_of (split_of first_edition fs.now «record».now) }
{
    let s = fields::split(record, fs);
    *count = capi_numbers::split_count(s);
    capi_numbers::split_outcome(s)
}

// Finds field k of a record, by the first edition: the outcome of splitting it, and the field's place and length.
pub fn find_field(record: &[u8], fs: &[u8], k: u64, start: &mut u64, length: &mut u64) -> u64
    ensures { (result ≡ (count_of (split_of first_edition fs.now «record».now)).outcome)
        × (span start.new length.new
        ≡ field_of first_edition fs.now «record».now k) }
{
    match fields::locate(record, fs, k as usize) {
        Ok(f) => {
            *start = f.start as u64;
            *length = f.size as u64;
            capi_numbers::split_outcome(Ok(f.count))
        }
        Err(e) => {
            *start = record.len() as u64;
            *length = 0;
            capi_numbers::split_outcome(Err(e))
        }
    }
}
