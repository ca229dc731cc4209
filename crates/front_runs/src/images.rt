// Images: made of a filter's text, read from a file and checked, written to a file.
//
// What makes an image returns how many bytes of its room the image has; the error is the status that the program ends
// with.
ghost use Rattle.edition.specs.Limits.{first_edition};
ghost use Rattle.translation.specs.Translation.{translate_of};
ghost use Rattle.front_runs.specs.Images.{TranslatedTo};

use edition::Outcome;
use image_check::CheckError;
use std::fs::File;
use std::{fs, io};

// Translates a filter's text. A refusal is said.
pub fn translate(rt: &HostRuntime, name: &[u8], text: &[u8], image: &mut [u8]) -> Result<usize, u64>
    ensures { TranslatedTo (translate_of first_edition text.now image.old)
        image.new result }
{
    let t = translator::translate(text, image);
    if t.outcome != Outcome::DONE {
        front_io::refuse_filter(rt, name, text, t.place, t.outcome);
        return Err(front_choices::status_of(t.outcome));
    }
    Ok(t.place)
}

// Translates the first n bytes of a room.
fn translate_front(
    rt: &HostRuntime,
    name: &[u8],
    text: &[u8],
    n: usize,
    image: &mut [u8],
) -> Result<usize, u64> {
    if text.len() < n {
        return Err(front_choices::IO_FAILED);
    }
    translate(rt, name, &text[0..n], image)
}

// Translates a filter file. Of one that does not fit the room, which has more bytes than a filter may have, the front
// is translated: it is refused as too long.
pub fn translate_file(
    rt: &HostRuntime,
    name: &[u8],
    text: &mut [u8],
    image: &mut [u8],
) -> Result<usize, u64> {
    let size = text.len();
    let n = front_io::load(rt, name, text, 0)?.unwrap_or(size);
    translate_front(rt, name, text, n, image)
}

// Reads an image file. What fails is said.
pub fn load(rt: &HostRuntime, name: &[u8], image: &mut [u8]) -> Result<usize, u64> {
    let size = image.len();
    let Some(n) = front_io::load(rt, name, image, 0)? else {
        front_io::refuse_size(rt, size);
        return Err(front_choices::NO_INPUT);
    };
    Ok(n)
}

// Refuses an image with an outcome, which is said, and returns the status.
pub fn refuse(rt: &HostRuntime, name: &[u8], outcome: u64) -> u64 {
    front_io::refuse_image(rt, name, outcome);
    front_choices::status_of(outcome)
}

// Reads an image file and checks it. A refusal is said.
pub fn load_checked(rt: &HostRuntime, name: &[u8], image: &mut [u8]) -> Result<usize, u64> {
    let n = load(rt, name, image)?;
    if image.len() < n {
        return Err(front_choices::IO_FAILED);
    }
    match image_check::check(&image[0..n]) {
        Ok(()) => Ok(n),
        Err(CheckError::Malformed) => Err(refuse(rt, name, Outcome::IMAGE_MALFORMED)),
        Err(CheckError::Rejected) => Err(refuse(rt, name, Outcome::IMAGE_FAILS_CHECK)),
    }
}

// Creates a file, or empties the one that there is.
fn create(rt: &HostRuntime, name: &[u8]) -> io::Result<File> {
    let path = front_io::path(name)?;
    fs::create(rt, path)
}

// Writes an image to a file.
fn write_file(rt: &HostRuntime, name: &[u8], image: &[u8]) -> io::Result<()> {
    let mut file = create(rt, name)?;
    front_files::write_whole(&mut file, image)
}

// Writes an image to a file, and returns the status. What fails is said.
pub fn write(rt: &HostRuntime, name: &[u8], image: &[u8]) -> u64 {
    match write_file(rt, name, image) {
        Ok(()) => 0,
        Err(error) => {
            front_io::fail(rt, name, &error);
            front_choices::IO_FAILED
        }
    }
}
