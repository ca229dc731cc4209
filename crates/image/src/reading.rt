// Reading an image: its content words, from its bytes.
//
// The invariant of a pass (`Going` of proofs/Passing.antt, for reading and writing): what the definition reads from `at`
// on, where `s` says what comes next, put after the first `k` words, is what it puts for the whole image, as far as the
// room goes; and where it reads nothing from there, the bytes are no image's.
ghost use Rattle.std.specs.Prelude.{◌≡◌, ◌≤◌, length};
ghost use Rattle.image_format.specs.Reading.{read_image, from_bytes};
ghost use Rattle.image_format.specs.Writing.{content_of};
ghost use Rattle.varint.specs.Room.{with_one};
ghost use Rattle.image.specs.Pass.{TakesStage, passed_of, pass_of};
ghost use Rattle.image.specs.Copy.{copying_of, read_of, is_image};

use crate::error::CopyError;

// Takes what comes at a stage off the bytes, from a place on: a text byte or a number; returns it and the place after
// it.
fn take(image: &[u8], stage: u64, at: usize) -> Option<(u64, usize)>
    requires { at ≤ length image.now }
    ensures { TakesStage from_bytes image.now stage at result }
{
    if stage != image_stages::BYTE {
        return varint::take_number(image, at);
    }
    if image.len() <= at {
        return None;
    }
    Some((image[at] as u64, at + 1))
}

// Writes word k, if the room has one there.
fn put_word(room: &mut [u64], k: usize, x: u64)
    ensures { room.new ≡ with_one room.old k x }
{
    if k < room.len() {
        room[k] = x;
    }
}

// Passes over a whole image, and writes a word for each of its numbers and text bytes, as far as the room goes; returns
// how many there are.
fn pass(image: &[u8], words: &mut [u64]) -> Option<usize>
    ensures { passed_of result words.new
        ≡ pass_of content_of words.old (read_image from_bytes image.now) }
{
    let mut s = image_stages::start();
    let mut at: usize = 0;
    let mut k: usize = 0;
    while s.stage < image_stages::END {
        let Some((v, end)) = take(image, s.stage, at) else {
            return None;
        };
        put_word(words, k, v);
        let Some(next) = image_stages::after(s, v) else {
            return None;
        };
        s = next;
        at = end;
        k += 1;
    }
    if at < image.len() {
        return None;
    }
    Some(k)
}

// Tells whether the bytes are an image's.
pub fn is_image(image: &[u8]) -> bool
    ensures { result ≡ is_image (read_image from_bytes image.now) }
{
    pass(image, &mut [0u64; 0]).is_some()
}

// Reads an image: its content, if the room has words enough, whose number is returned; else the room is as it was. So
// a first pass, which says how many words there are, is lent no word of the room.
pub fn read(image: &[u8], content: &mut [u64]) -> Result<usize, CopyError>
    ensures { copying_of result content.new ≡ read_of image.now content.old }
{
    let Some(words) = pass(image, &mut content[0..0]) else {
        return Err(CopyError::Malformed);
    };
    if content.len() < words {
        return Err(CopyError::NoRoom);
    }
    pass(image, content);
    Ok(words)
}
