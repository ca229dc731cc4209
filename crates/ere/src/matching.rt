// EREs as tables, and the match of an ERE in a text.
ghost use Rattle.std.specs.Prelude.{◌≡◌, length};
ghost use Rattle.edition.specs.Limits.{first_edition};
ghost use Rattle.ere_table.specs.Table.{table_words};
ghost use Rattle.ere.specs.Answer.{matching_of, search_of, Compiles};

use edition::Edition;

// Why a search answers nothing of a text.
#[derive(Clone, Copy, PartialEq, Eq)]
pub enum Refusal {
    BadEre,
    LongText,
}

// Compiles an ERE into a table, for `ere_search::find_from`, and tells whether it is one. Where it is none, what the
// table has is left open: no caller may use it.
pub fn compile(ere: &[u8], edition: Edition, t: &mut [u64]) -> bool
    requires { length t.old ≡ table_words }
    ensures { Compiles edition.number ere.now t.new result }
{
    let end = ere.len();
    if Edition::ERE_BYTES < end {
        return false;
    }
    let Some(g) = ere_parser::read_group(ere, Edition::ERE_GROUPS, 0, 0, 0, t) else {
        return false;
    };
    if g.at < end {
        return false;
    }
    ere_table::put_row(t, 0, g.entry.first);
    ere_table::put_row(t, 1, g.entry.later);
    ere_table::put_first_bytes(t);
    true
}

// Finds the leftmost, longest match of the ERE in the text, by the first edition: where it starts, from 0, and how long
// it is.
pub fn search(ere: &[u8], text: &[u8]) -> Result<Option<(usize, usize)>, Refusal>
    ensures { matching_of result ≡ search_of first_edition ere.now text.now }
{
    let mut t = [0u64; ere_table::TABLE_WORDS];
    let edition = Edition {
        number: Edition::FIRST,
    };
    if !compile(ere, edition, &mut t) {
        return Err(Refusal::BadEre);
    }
    if Edition::TEXT < text.len() {
        return Err(Refusal::LongText);
    }
    Ok(ere_search::find_from(&t, text, 0, 0))
}
