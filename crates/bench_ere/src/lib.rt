// An ERE compiled once for many texts, for C: what `bench/match` measures.
#![tactic(auto)]

ghost use Rattle.bench_ere.specs.Answer.{Prepares, Searches, Tells};

mod derived;

pub use derived::{derived_exists, derived_seek, prepared_seek, texts_matching, texts_sought};
use edition::Edition;

// Reads an ERE into a table: 1 if it is one, 0 if not or if the table has another size.
#[unsafe(no_mangle)]
pub extern "C" fn prepared_compile(ere: &[u8], table: &mut [u64]) -> u64
    ensures { Prepares ere.now table.old table.new result }
{
    if table.len() != ere_table::TABLE_WORDS {
        return 0;
    }
    let edition = Edition {
        number: Edition::FIRST,
    };
    if ere::compile(ere, edition, table) {
        return 1;
    }
    0
}

// Returns the length of the leftmost, longest match in a text, and one more; 0 if there is none, or the text is too
// long.
#[unsafe(no_mangle)]
pub extern "C" fn prepared_find(table: &[u64], text: &[u8]) -> u64
    ensures { Searches table.now text.now result }
{
    if table.len() != ere_table::TABLE_WORDS {
        return 0;
    }
    if Edition::TEXT < text.len() {
        return 0;
    }
    match ere_search::find_from(table, text, 0, 0) {
        Some((start, length)) => length as u64 + 1,
        None => 0,
    }
}

// Returns 1 if there is a match in a text; 0 if there is none, or the text is too long.
#[unsafe(no_mangle)]
pub extern "C" fn prepared_exists(table: &[u64], text: &[u8]) -> u64
    ensures { Tells table.now text.now result }
{
    if table.len() != ere_table::TABLE_WORDS {
        return 0;
    }
    if Edition::TEXT < text.len() {
        return 0;
    }
    if ere_exists::exists(table, text) {
        return 1;
    }
    0
}
