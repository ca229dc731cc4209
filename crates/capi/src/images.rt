// Reading, writing and checking images, for C.
ghost use Rattle.std.specs.Prelude.{◌≡◌};
ghost use Rattle.image.specs.Copy.{copying, read_of, written_of};
ghost use Rattle.image_check.specs.Verdict.{check_of};

// Reads an image to its content words.
pub fn flowawk_read(image: &[u8], content: &mut [u64], written: &mut u64) -> u64
    ensures { copying result written.new content.new
        ≡ read_of image.now content.old }
{
    let c = image::read(image, content);
    *written = capi_numbers::copied_length(c);
    capi_numbers::copied_outcome(c)
}

// Writes the bytes of an image, from its content words.
pub fn flowawk_write(content: &[u64], image: &mut [u8], written: &mut u64) -> u64
    ensures { copying result written.new image.new
        ≡ written_of content.now image.old }
{
    let c = image_writer::write(content, image);
    *written = capi_numbers::copied_length(c);
    capi_numbers::copied_outcome(c)
}

// Checks an image.
pub fn flowawk_check(image: &[u8]) -> u64
    ensures { result ≡ check_of image.now }
{
    capi_numbers::verdict_outcome(image_check::check(image))
}
