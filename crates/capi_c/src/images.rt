// Reading, writing and checking images, for C.
ghost use Rattle.std.specs.Prelude.{◌≡◌};
ghost use Rattle.image.specs.Copy.{copying, read_of, written_of};
ghost use Rattle.image_check.specs.Verdict.{check_of};

// Reads an image to its content words.
#[unsafe(no_mangle)]
pub extern "C" fn flowawk_read(image: &[u8], content: &mut [u64], written: &mut u64) -> u64
    ensures { copying result written.new content.new
        ≡ read_of image.now content.old }
{
    capi::flowawk_read(image, content, written)
}

// Writes the bytes of an image, from its content words.
#[unsafe(no_mangle)]
pub extern "C" fn flowawk_write(content: &[u64], image: &mut [u8], written: &mut u64) -> u64
    ensures { copying result written.new image.new
        ≡ written_of content.now image.old }
{
    capi::flowawk_write(content, image, written)
}

// Checks an image.
#[unsafe(no_mangle)]
pub extern "C" fn flowawk_check(image: &[u8]) -> u64
    ensures { result ≡ check_of image.now }
{
    capi::flowawk_check(image)
}
