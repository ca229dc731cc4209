// The match of an ERE in a text, for C.
ghost use Rattle.std.specs.Prelude.{◌≡◌};
ghost use Rattle.edition.specs.Limits.{first_edition};
ghost use Rattle.ere.specs.Answer.{matching, search_of};

// Finds the leftmost, longest match of the ERE in the text, by the first edition.
#[unsafe(no_mangle)]
pub extern "C" fn flowawk_match(ere: &[u8], text: &[u8], rstart: &mut u64, rlength: &mut i64) -> u64
    ensures { matching result rstart.new rlength.new
        ≡ search_of first_edition ere.now text.now }
{
    capi::flowawk_match(ere, text, rstart, rlength)
}
