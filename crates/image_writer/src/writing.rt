// Writing an image: its bytes, from its content words.
//
// The invariant of a pass is that of reading, with words taken and bytes put.
ghost use Rattle.std.specs.Prelude.{◌≡◌, ◌+◌, ◌≤◌, ◌<◌, ◌^◌, length};
ghost use Rattle.image_format.specs.Numbers.{coded};
ghost use Rattle.image_format.specs.Reading.{read_image, from_words};
ghost use Rattle.image_format.specs.Writing.{bytes_of};
ghost use Rattle.varint.specs.Room.{with_all};
ghost use Rattle.image_stages.specs.Stages.{most_at, written_at};
ghost use Rattle.image.specs.Pass.{TakesStage, passed_of, pass_of};
ghost use Rattle.image.specs.Copy.{copying_of, written_of};

use edition::Edition;
use image::CopyError;

// The greatest text byte.
const BYTE: u64 = 255;

// Returns the greatest word that can come at a stage.
fn most(stage: u64) -> u64
    ensures { result ≡ most_at stage }
{
    if stage == image_stages::BYTE {
        return BYTE;
    }
    Edition::NUMBER
}

// Takes what comes at a stage off the words, from a place on; returns it and the place after it.
fn take(content: &[u64], stage: u64, at: usize) -> Option<(u64, usize)>
    requires { at ≤ length content.now }
    ensures { TakesStage from_words content.now stage at result }
{
    if content.len() <= at {
        return None;
    }
    let w = content[at];
    if most(stage) < w {
        return None;
    }
    Some((w, at + 1))
}

// Writes what came at a stage from byte k on; returns the index after it.
fn put(bytes: &mut [u8], stage: u64, k: usize, v: u64) -> usize
    requires { (v ≤ most_at stage) × (k + 8 < 2 ^ 64) }
    ensures { (result ≡ k + length (written_at coded stage v))
        × (bytes.new ≡ with_all bytes.old k (written_at coded stage v)) }
{
    if stage == image_stages::BYTE {
        varint::put_byte(bytes, k, v as u8);
        return k + 1;
    }
    varint::put_number(bytes, k, v)
}

// Passes over all content words, and writes the image's bytes as far as the room goes; returns how many there are.
fn pass(content: &[u64], bytes: &mut [u8]) -> Option<usize>
    ensures { passed_of result bytes.new
        ≡ pass_of bytes_of bytes.old (read_image from_words content.now) }
{
    let mut s = image_stages::start();
    let mut at: usize = 0;
    let mut k: usize = 0;
    while s.stage < image_stages::END {
        let Some((v, end)) = take(content, s.stage, at) else {
            return None;
        };
        k = put(bytes, s.stage, k, v);
        let Some(next) = image_stages::after(s, v) else {
            return None;
        };
        s = next;
        at = end;
    }
    if at < content.len() {
        return None;
    }
    Some(k)
}

// Writes an image: its bytes, if the room has enough, whose number is returned; else the room is as it was. So a first
// pass, which says how many bytes there are, is lent no byte of the room.
pub fn write(content: &[u64], image: &mut [u8]) -> Result<usize, CopyError>
    ensures { copying_of result image.new ≡ written_of content.now image.old }
{
    let Some(bytes) = pass(content, &mut image[0..0]) else {
        return Err(CopyError::Malformed);
    };
    if image.len() < bytes {
        return Err(CopyError::NoRoom);
    }
    pass(content, image);
    Ok(bytes)
}
