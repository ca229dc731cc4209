// Operands by number: each word's place in the text becomes the number of what it names.
ghost use Rattle.std.specs.Prelude.{◌≤◌, ◌<◌, length, take, eqb};
ghost use Rattle.edition.specs.Limits.{filter_text, first_edition};
ghost use Rattle.program_numberer.specs.Numbered.{
  HoldsSome,
  WordNumbered,
  SectionNumbered,
  ProgramNumbers,
};

use edition::Edition;
use program_image::Sections;

// Numbers the operand of instruction i, if it names an entry of this table, which has n; returns how many it has then,
// at most 1 more than there is room for.
fn number_word(
    s: &[u8],
    section: &mut [u64],
    i: usize,
    what: u64,
    table: &mut [u64],
    n: usize,
    edition: Edition,
) -> usize
    requires { (length s.now ≤ filter_text) × (i < length section.old) × (length table.old ≤ filter_text)
        × HoldsSome s.now (eqb what 0) table.old n × (first_edition ≤ edition.number) }
    ensures { WordNumbered edition.number s.now what section.old i
        table.old n section.new table.new result }
{
    let w = section[i];
    let op = program_words::op_in(w);
    if !program_entries::is_named(what, op) | (table.len() / 2 < n) {
        return n;
    }
    let e = program_entries::entry_at(s, program_words::first_in(w) as usize, what, edition);
    let k = program_tables::enter(s, table, n, e, program_entries::has_escapes(what));
    section[i] = program_words::instruction(op, program_words::depth_in(w), k as u64, 0);
    if k < n {
        return n;
    }
    n + 1
}

// Numbers the operands of the first `count` instructions of a section that name entries of a table, which has n;
// returns how many it has then, or 1 more than there is room for.
fn number_section(
    s: &[u8],
    section: &mut [u64],
    count: usize,
    what: u64,
    table: &mut [u64],
    n: usize,
    edition: Edition,
) -> usize
    requires { (length s.now ≤ filter_text) × (count ≤ length section.old) × (length table.old ≤ filter_text)
        × HoldsSome s.now (eqb what 0) table.old n × (first_edition ≤ edition.number) }
    ensures { SectionNumbered edition.number s.now what section.old count
        table.old n section.new table.new result }
{
    let mut m = n;
    for i in 0..count {
        m = number_word(s, section, i, what, table, m, edition);
    }
    m
}

// Numbers the operands of all sections that name entries of one table, which has n; returns how many it has then, or 1
// more than there is room for.
pub fn number(
    s: &[u8],
    begin: &mut [u64],
    main: &mut [u64],
    end: &mut [u64],
    sections: Sections,
    what: u64,
    table: &mut [u64],
    n: usize,
    edition: Edition,
) -> usize
    requires { (length s.now ≤ filter_text) × (sections.begin ≤ length begin.old)
        × (sections.main ≤ length main.old) × (sections.end ≤ length end.old)
        × (length table.old ≤ filter_text) × HoldsSome s.now (eqb what 0) table.old n
        × (first_edition ≤ edition.number) }
    ensures { ProgramNumbers edition.number s.now what
        (take sections.begin begin.old) (take sections.main main.old)
        (take sections.end end.old) (take sections.begin begin.new)
        (take sections.main main.new) (take sections.end end.new) table.old n
        table.new result }
{
    let b = number_section(s, begin, sections.begin, what, table, n, edition);
    let m = number_section(s, main, sections.main, what, table, b, edition);
    number_section(s, end, sections.end, what, table, m, edition)
}
