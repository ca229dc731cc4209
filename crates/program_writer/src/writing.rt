// The image of a program whose words are numbered, written if it fits.
ghost use Rattle.std.specs.Prelude.{◌≡◌, true, cond, ◌-◌, ◌≤◌, length};
ghost use Rattle.edition.specs.Limits.{filter_text, number_bound};
ghost use Rattle.edition.specs.Outcomes.{size_passed};
ghost use Rattle.semantics.specs.Variables.{special_count};
ghost use Rattle.image_format.specs.Writing.{bytes_of};
ghost use Rattle.translation.specs.Translation.{refused, stored, sized};
ghost use Rattle.program_image.specs.Written.{AllSmall};
ghost use Rattle.program_image.specs.Pictured.{Tabled, Sectioned, Pictures, pictured};
ghost use Rattle.program_image.specs.Fitting.{counts_fit};
ghost use Rattle.program_writer.specs.Answer.{translation_of};

use edition::{Edition, Outcome};
use program_image::{Counts, Sections};

// An outcome and its place: of 0, the image's length.
#[derive(Drop)]
pub struct Translation {
    pub outcome: u64,
    pub place: usize,
}

// Writes an image, if the room has enough bytes; else the room is as it was. So the first pass, which says how many
// bytes there are, is lent no byte of the room.
fn write_image(
    s: &[u8],
    begin: &[u64],
    main: &[u64],
    end: &[u64],
    sections: Sections,
    constants: &[u64],
    eres: &[u64],
    counts: Counts,
    edition: Edition,
    image: &mut [u8],
) -> Translation
    requires { Pictures edition.number s.now counts constants.now eres.now sections begin.now main.now
        end.now }
    ensures { translation_of result image.new ≡ stored image.old s.now (bytes_of
        (pictured edition.number s.now counts constants.now eres.now sections
        begin.now main.now end.now)) }
{
    let n = program_image::put_image(
        s,
        begin,
        main,
        end,
        sections,
        constants,
        eres,
        counts,
        edition,
        &mut image[0..0],
    );
    if image.len() < n {
        return Translation {
            outcome: Outcome::ROOM_TOO_SMALL,
            place: s.len(),
        };
    }
    program_image::put_image(
        s, begin, main, end, sections, constants, eres, counts, edition, image,
    );
    Translation {
        outcome: Outcome::DONE,
        place: n,
    }
}

// Writes an image, if its sizes fit.
pub fn write_fitting(
    s: &[u8],
    begin: &[u64],
    main: &[u64],
    end: &[u64],
    sections: Sections,
    constants: &[u64],
    eres: &[u64],
    counts: Counts,
    edition: Edition,
    image: &mut [u8],
) -> Translation
    requires { (length s.now ≤ filter_text) × (edition.number ≤ number_bound)
        × (counts_fit edition.number counts.variables counts.constants counts.eres ≡ true
        → (special_count edition.number ≤ counts.variables) × Tabled s.now constants.now counts.constants
        × AllSmall constants.now counts.constants × Tabled s.now eres.now counts.eres)
        × Sectioned begin.now sections.begin × Sectioned main.now sections.main
        × Sectioned end.now sections.end }
    ensures { translation_of result image.new
        ≡ cond (counts_fit edition.number counts.variables counts.constants counts.eres)
        (sized image.old s.now
        (pictured edition.number s.now counts constants.now eres.now sections
        begin.now main.now end.now))
        (refused image.old size_passed (length s.now)) }
{
    let too_large = Translation {
        outcome: Outcome::SIZE_PASSED,
        place: s.len(),
    };
    if !program_image::counts_fit(counts, edition) {
        return too_large;
    }
    if !program_image::sections_fit(begin, main, end, sections) {
        return too_large;
    }
    if !program_image::constants_fit(s, constants, counts.constants) {
        return too_large;
    }
    write_image(
        s, begin, main, end, sections, constants, eres, counts, edition, image,
    )
}
