// The check of an image.
ghost use Rattle.std.specs.Prelude.{◌≡◌, ◌≤◌, ◌<◌, length};
ghost use Rattle.edition.specs.Limits.{user_names, instruction_count};
ghost use Rattle.image_format.specs.Image.{image_bound};
ghost use Rattle.image_check.specs.Sections.{SectionJudged, SectionsJudged, ImageJudged};
ghost use Rattle.image_check.specs.Verdict.{outcome_of, check_of};

use edition::Edition;
use image_index::Kind;
use image_instructions::Context;

// Why the checker does not accept an image.
#[derive(Clone, Copy, PartialEq, Eq)]
pub enum CheckError {
    Malformed,
    Rejected,
}

// Reads the section at a place with its index, and checks its instructions; returns where it ends, if it passes.
fn section(image: &[u8], context: Context, at: usize, index: &mut [u32]) -> Option<usize>
    requires { (at ≤ length image.now) × (length image.now < image_bound) × (instruction_count ≤ length index.old)
        × (context.users ≤ user_names) }
    ensures { SectionJudged context image.now at result }
{
    let s = image_index::list_at(image, context.edition, Kind::Instructions, at, index)?;
    if !image_instructions::check_instructions(index, context, s.count) {
        return None;
    }
    Some(s.end)
}

// Tells whether the sections from a place on pass, and end the image. One index serves all three.
fn sections(image: &[u8], context: Context, at: usize) -> bool
    requires { (at ≤ length image.now) × (length image.now < image_bound) × (context.users ≤ user_names) }
    ensures { SectionsJudged context.edition context.users context.constants context.eres image.now at result }
{
    let mut index = [0u32; Edition::INSTRUCTIONS];
    let outside_main = Context {
        main: false,
        ..context
    };
    let in_main = Context {
        main: true,
        ..context
    };
    let Some(begin) = section(image, outside_main, at, &mut index) else {
        return false;
    };
    let Some(main) = section(image, in_main, begin, &mut index) else {
        return false;
    };
    let Some(end) = section(image, outside_main, main, &mut index) else {
        return false;
    };
    end == image.len()
}

// Tells whether the bytes are an image that passes the check.
fn passes(image: &[u8]) -> bool
    requires { length image.now < image_bound }
    ensures { ImageJudged image.now result }
{
    let mut places = [0u32; 0];
    let Some(h) = image_items::header_of(image) else {
        return false;
    };
    if (Edition::USERS as u64) < h.users {
        return false;
    }
    let Some(constants) = image_index::list_at(image, h.edition, Kind::Constants, h.at, &mut places)
    else {
        return false;
    };
    let Some(eres) = image_index::list_at(image, h.edition, Kind::Eres, constants.end, &mut places)
    else {
        return false;
    };
    let context = Context {
        edition: h.edition,
        users: h.users,
        constants: constants.count as u64,
        eres: eres.count as u64,
        main: false,
    };
    sections(image, context, eres.end)
}

// Checks an image. One that passes is walked through once; the form of any other is looked at by itself.
pub fn check(image: &[u8]) -> Result<(), CheckError>
    ensures { outcome_of result ≡ check_of image.now }
{
    if image.len() < image_index::IMAGE_BYTES && passes(image) {
        return Ok(());
    }
    if image::is_image(image) {
        return Err(CheckError::Rejected);
    }
    Err(CheckError::Malformed)
}
