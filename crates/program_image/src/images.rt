// The whole image: whether its sizes fit, and its bytes.
ghost use Rattle.std.specs.Prelude.{◌≡◌, true, ◌+◌, ◌-◌, ◌≤◌, ◌<◌, length};
ghost use Rattle.program_image.specs.Written.{instructions_of};
ghost use Rattle.program_image.specs.Pictured.{WritesImage, Pictures, pictured};
ghost use Rattle.program_image.specs.Fitting.{counts_fit, sections_fit};

use crate::{sizes, writing};
use edition::Edition;

// How many instructions each section has.
#[derive(Clone, Copy)]
pub struct Sections {
    pub begin: usize,
    pub main: usize,
    pub end: usize,
}

// How many variables, constants and EREs a program has.
#[derive(Clone, Copy)]
pub struct Counts {
    pub variables: usize,
    pub constants: usize,
    pub eres: usize,
}

// Tells whether the counts of a program are within their sizes.
pub fn counts_fit(counts: Counts, edition: Edition) -> bool
    ensures { result
        ≡ counts_fit edition.number counts.variables counts.constants counts.eres }
{
    let most = opcodes::specials(edition.number) + Edition::USERS as u64;
    (counts.variables as u64 <= most)
        & ((counts.constants <= Edition::CONSTANTS) & (counts.eres <= Edition::ERES))
}

// Tells whether the depths of all sections are within their size.
pub fn sections_fit(begin: &[u64], main: &[u64], end: &[u64], sections: Sections) -> bool
    requires { (sections.begin ≤ length begin.now) × (sections.main ≤ length main.now)
        × (sections.end ≤ length end.now) }
    ensures { result ≡ sections_fit (instructions_of begin.now sections.begin)
        (instructions_of main.now sections.main) (instructions_of end.now sections.end) }
{
    sizes::depths_fit(begin, sections.begin)
        & (sizes::depths_fit(main, sections.main) & sizes::depths_fit(end, sections.end))
}

// Writes the whole image, as far as the room goes; returns its length.
pub fn put_image(
    s: &[u8],
    begin: &[u64],
    main: &[u64],
    end: &[u64],
    sections: Sections,
    constants: &[u64],
    eres: &[u64],
    counts: Counts,
    edition: Edition,
    room: &mut [u8],
) -> usize
    requires { Pictures edition.number s.now counts constants.now eres.now sections begin.now main.now
        end.now }
    ensures { WritesImage room.old
        (pictured edition.number s.now counts constants.now eres.now sections
        begin.now main.now end.now) result room.new }
{
    let users = counts.variables as u64 - opcodes::specials(edition.number);
    let e = varint::put_number(room, 0, edition.number);
    let u = varint::put_number(room, e, users);
    let c = writing::put_entries(s, constants, counts.constants, true, room, u);
    let r = writing::put_entries(s, eres, counts.eres, false, room, c);
    let b = writing::put_section(begin, sections.begin, room, r);
    let m = writing::put_section(main, sections.main, room, b);
    writing::put_section(end, sections.end, room, m)
}
