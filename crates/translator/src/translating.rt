// The translator's entry.
ghost use Rattle.std.specs.Prelude.{◌≡◌, ◌≤◌, length, take};
ghost use Rattle.edition.specs.Limits.{first_edition, filter_text, number_bound};
ghost use Rattle.program_reader.specs.Programs.{read_program};
ghost use Rattle.translation.specs.Translation.{of_program, translate_of};
ghost use Rattle.program_image.specs.Pictured.{Sectioned};
ghost use Rattle.program_writer.specs.Answer.{translation_of};
ghost use Rattle.translator.specs.ReadAs.{ReadAs};

use crate::numbering;
use edition::{Edition, Outcome};
use program_image::Sections;
use program_writer::Translation;

// The words of the tables.
const VARIABLE_WORDS: usize = 2 * (program_entries::SPECIALS + Edition::USERS);

const CONSTANT_WORDS: usize = 2 * Edition::CONSTANTS;

const ERE_WORDS: usize = 2 * Edition::ERES;

// Translates a text that was read: numbers its words and writes the image.
fn translate_words(
    s: &[u8],
    begin: &mut [u64],
    main: &mut [u64],
    end: &mut [u64],
    sections: Sections,
    edition: Edition,
    image: &mut [u8],
) -> Translation
    requires { (length s.now ≤ filter_text) × (first_edition ≤ edition.number) × (edition.number ≤ number_bound)
        × Sectioned begin.old sections.begin × Sectioned main.old sections.main
        × Sectioned end.old sections.end × ReadAs edition.number s.now (take sections.begin begin.old)
        (take sections.main main.old) (take sections.end end.old) }
    ensures { translation_of result image.new ≡ of_program image.old edition.number
        s.now (read_program edition.number s.now) }
{
    let mut variables = [0u64; VARIABLE_WORDS];
    let mut constants = [0u64; CONSTANT_WORDS];
    let mut eres = [0u64; ERE_WORDS];
    let counts = numbering::number_words(
        s,
        begin,
        main,
        end,
        sections,
        &mut variables,
        &mut constants,
        &mut eres,
        edition,
    );
    program_writer::write_fitting(
        s, begin, main, end, sections, &constants, &eres, counts, edition, image,
    )
}

// Reads a text of at most 8,192 bytes, and translates it.
fn translate_text(s: &[u8], edition: Edition, image: &mut [u8]) -> Translation
    requires { (length s.now ≤ filter_text) × (first_edition ≤ edition.number)
        × (edition.number ≤ number_bound) }
    ensures { translation_of result image.new ≡ of_program image.old edition.number
        s.now (read_program edition.number s.now) }
{
    let mut begin = [0u64; Edition::INSTRUCTIONS];
    let mut main = [0u64; Edition::INSTRUCTIONS];
    let mut end = [0u64; Edition::INSTRUCTIONS];
    let p = program_items::read_program(s, &mut begin, &mut main, &mut end, edition);
    if p.outcome != 0 {
        let t = p.token;
        return Translation {
            outcome: p.outcome,
            place: t.start,
        };
    }
    if (Edition::INSTRUCTIONS < p.begin)
        | ((Edition::INSTRUCTIONS < p.main) | (Edition::INSTRUCTIONS < p.end))
    {
        return Translation {
            outcome: Outcome::SIZE_PASSED,
            place: s.len(),
        };
    }
    let sections = Sections {
        begin: p.begin,
        main: p.main,
        end: p.end,
    };
    translate_words(s, &mut begin, &mut main, &mut end, sections, edition, image)
}

// Translates a text by the rules of an edition.
pub fn translate_by(text: &[u8], edition: Edition, image: &mut [u8]) -> Translation
    requires { (first_edition ≤ edition.number) × (edition.number ≤ number_bound) }
    ensures { translation_of result image.new
        ≡ translate_of edition.number text.now image.old }
{
    if Edition::FILTER_TEXT < text.len() {
        return Translation {
            outcome: Outcome::FILTER_TEXT_TOO_LONG,
            place: Edition::FILTER_TEXT,
        };
    }
    let nul = buffer::first_byte(text, 0);
    if nul < text.len() {
        return Translation {
            outcome: Outcome::NUL_BYTE,
            place: nul,
        };
    }
    translate_text(text, edition, image)
}

// Translates a text: the outcome and its place, or 0 and the length of the image that is written.
pub fn translate(text: &[u8], image: &mut [u8]) -> Translation
    ensures { translation_of result image.new
        ≡ translate_of first_edition text.now image.old }
{
    let first = Edition {
        number: Edition::FIRST,
    };
    translate_by(text, first, image)
}
