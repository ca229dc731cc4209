// The index of an image that passes the check, made once for a run.
ghost use Rattle.std.specs.Prelude.{◌≤◌, ◌<◌, length};
ghost use Rattle.image_format.specs.Image.{image_bound};
ghost use Rattle.image_loader.specs.Loads.{rooms, SectionsLoaded, LoadsAccepted};

use image_index::Kind;

// The edition, the count of user variables, and how many items each list has.
#[derive(Clone, Copy, Default)]
pub struct Loaded {
    pub edition: u64,
    pub users: u64,
    pub constants: usize,
    pub eres: usize,
    pub begin: usize,
    pub main: usize,
    pub end: usize,
}

// How many instructions each section has.
#[derive(Clone, Copy, Default)]
pub struct Counts {
    pub begin: usize,
    pub main: usize,
    pub end: usize,
}

// Fills the indexes of the three sections, from their place on. The counts of sections that no accepted image can have
// are 0.
fn sections(
    image: &[u8],
    edition: u64,
    at: usize,
    begin: &mut [u32],
    main: &mut [u32],
    end: &mut [u32],
) -> Counts
    requires { (at ≤ length image.now) × (length image.now < image_bound) }
    ensures { SectionsLoaded edition image.now at result begin.new main.new
        end.new }
{
    let Some(b) = image_index::list_at(image, edition, Kind::Instructions, at, begin) else {
        return Counts::default();
    };
    let Some(r) = image_index::list_at(image, edition, Kind::Instructions, b.end, main) else {
        return Counts::default();
    };
    let Some(f) = image_index::list_at(image, edition, Kind::Instructions, r.end, end) else {
        return Counts::default();
    };
    Counts {
        begin: b.count,
        main: r.count,
        end: f.count,
    }
}

// Writes the index of an image that passes the check: entries of its constants, EREs and three sections, as far as the
// rooms go. Of other bytes, the answer and what the rooms have are left open.
pub fn load(
    image: &[u8],
    constants: &mut [u32],
    eres: &mut [u32],
    begin: &mut [u32],
    main: &mut [u32],
    end: &mut [u32],
) -> Loaded
    ensures { LoadsAccepted image.now result
        (rooms constants.new eres.new begin.new main.new end.new) }
{
    if image_index::IMAGE_BYTES <= image.len() {
        return Loaded::default();
    }
    let Some(h) = image_items::header_of(image) else {
        return Loaded::default();
    };
    let Some(c) = image_index::list_at(image, h.edition, Kind::Constants, h.at, constants) else {
        return Loaded::default();
    };
    let Some(e) = image_index::list_at(image, h.edition, Kind::Eres, c.end, eres) else {
        return Loaded::default();
    };
    let s = sections(image, h.edition, e.end, begin, main, end);
    Loaded {
        edition: h.edition,
        users: h.users,
        constants: c.count,
        eres: e.count,
        begin: s.begin,
        main: s.main,
        end: s.end,
    }
}
