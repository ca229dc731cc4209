// A program's words by number, and the tables of what they name.
ghost use Rattle.std.specs.Prelude.{◌≡◌, ◌≤◌, length, take};
ghost use Rattle.edition.specs.Limits.{first_edition, filter_text};
ghost use Rattle.translator.specs.Tabulated.{variable_words, constant_words, ere_words, Tabulated};

use edition::Edition;
use program_image::{Counts, Sections};

// Numbers the words of a program that was read, in three passes; returns how many variables, constants and EREs there
// are, or 1 more than there is room for.
pub fn number_words(
    s: &[u8],
    begin: &mut [u64],
    main: &mut [u64],
    end: &mut [u64],
    sections: Sections,
    variables: &mut [u64],
    constants: &mut [u64],
    eres: &mut [u64],
    edition: Edition,
) -> Counts
    requires { (length s.now ≤ filter_text) × (first_edition ≤ edition.number)
        × (sections.begin ≤ length begin.old) × (sections.main ≤ length main.old)
        × (sections.end ≤ length end.old) × (length variables.old ≡ variable_words)
        × (length constants.old ≡ constant_words) × (length eres.old ≡ ere_words) }
    ensures { Tabulated edition.number s.now (take sections.begin begin.old)
        (take sections.main main.old) (take sections.end end.old)
        (take sections.begin begin.new) (take sections.main main.new)
        (take sections.end end.new) constants.new eres.new result.variables
        result.constants result.eres }
{
    let v = program_entries::enter_variables(s, variables, edition);
    let c = program_numberer::number(
        s,
        begin,
        main,
        end,
        sections,
        program_entries::CONSTANTS,
        constants,
        0,
        edition,
    );
    let e = program_numberer::number(
        s,
        begin,
        main,
        end,
        sections,
        program_entries::ERES,
        eres,
        0,
        edition,
    );
    program_numberer::number(
        s,
        begin,
        main,
        end,
        sections,
        program_entries::VARIABLES,
        variables,
        v,
        edition,
    );
    Counts {
        variables: v,
        constants: c,
        eres: e,
    }
}
