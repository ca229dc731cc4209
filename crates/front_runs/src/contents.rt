// The content of an image, a word on a line.
use crate::images;
use edition::Outcome;
use image::CopyError;

// The bytes of a line: the digits of a word and the newline.
const LINE: usize = 21;

// Writes the digits of each word and a newline to a room. Returns how many bytes they are, or `None` where they do not
// fit.
fn put_words(room: &mut [u8], words: &[u64]) -> Option<usize> {
    let size = room.len();
    let mut k: usize = 0;
    for word in words {
        if size - k < LINE {
            return None;
        }
        let end = front_lines::put_decimal(room, k, *word);
        varint::put_byte(room, end, b'\n');
        k = end + 1;
    }
    Some(k)
}

// Prints the first n words, by way of a room for their lines, and returns the status.
fn print_words(rt: &HostRuntime, words: &[u64], n: usize, lines: &mut [u8]) -> u64 {
    if words.len() < n {
        return front_choices::IO_FAILED;
    }
    let Some(end) = put_words(lines, &words[0..n]) else {
        front_io::refuse_size(rt, lines.len());
        return front_choices::IO_FAILED;
    };
    if lines.len() < end {
        return front_choices::IO_FAILED;
    }
    if front_io::print(rt, &lines[0..end]) {
        return 0;
    }
    front_choices::IO_FAILED
}

// Prints the content of an image file, and returns the status. A refusal is said.
pub fn print_content(
    rt: &HostRuntime,
    name: &[u8],
    image: &mut [u8],
    words: &mut [u64],
    lines: &mut [u8],
) -> u64 {
    match images::load(rt, name, image) {
        Ok(n) => print_image(rt, name, image, n, words, lines),
        Err(status) => status,
    }
}

// Prints the content of the image in the first n bytes of a room, and returns the status. A refusal is said.
fn print_image(
    rt: &HostRuntime,
    name: &[u8],
    image: &[u8],
    n: usize,
    words: &mut [u64],
    lines: &mut [u8],
) -> u64 {
    if image.len() < n {
        return front_choices::IO_FAILED;
    }
    match image::read(&image[0..n], words) {
        Ok(count) => print_words(rt, words, count, lines),
        Err(CopyError::Malformed) => images::refuse(rt, name, Outcome::IMAGE_MALFORMED),
        Err(CopyError::NoRoom) => images::refuse(rt, name, Outcome::ROOM_TOO_SMALL),
    }
}
