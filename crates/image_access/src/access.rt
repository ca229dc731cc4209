// From an index to what is in the image.
ghost use Rattle.std.specs.Prelude.{◌≡◌, ℕ, ◌≤◌, ◌<◌, List, length, get_or};
ghost use Rattle.image_format.specs.Image.{text};
ghost use Rattle.image_items.specs.Stands.{ConstantAt};
ghost use Rattle.image_index.specs.Lists.{numbers_of, TellsOf, IsPart};
ghost use Rattle.image_index.specs.declared.indexes.Kind.TheVariants.{Constants, Eres};

use image_index::Numbers;
use image_items::{Constant, Found};

// Returns the instruction whose entry has the number n.
pub fn instruction(index: &[u32], n: usize) -> Numbers
    requires { n < length index.now }
    ensures { result ≡ numbers_of (get_or index.now n 0) }
{
    let w = index[n] as u64;
    Numbers {
        code: w % 64,
        depth: w / 64 % 64,
        first: w / 4096 % 1024,
        second: w / 4194304,
    }
}

// Returns the constant whose entry has the number n, if there is one.
pub fn constant(image: &[u8], index: &[u32], n: usize) -> Option<Found>
    requires { (n < length index.now) × (get_or index.now n 0 ≤ length image.now) }
    ensures { ConstantAt image.now (get_or index.now n 0) result }
{
    image_items::constant_at(image, index[n] as usize)
}

// Returns the bytes of the text constant whose entry has the number n, as a part of the image; none if it is none.
pub fn constant_bytes<'a, 'b>(image: &'a [u8], index: &'b [u32], n: usize) -> &'a [u8]
    requires { (n < length index.now) × (get_or index.now n 0 ≤ length image.now) }
    ensures { (IsPart image.now image.entry.ref_ptr result.now result.ref_ptr)
        × ((edition : ℕ) (bytes : List ℕ)
        → TellsOf edition Constants image.now (get_or index.now n 0) (text bytes)
        → result.now ≡ bytes) }
{
    let Some(c) = image_items::constant_at(image, index[n] as usize) else {
        return &image[0..0];
    };
    let Constant::Text(t) = c.constant else {
        return &image[0..0];
    };
    &image[t.start..t.end]
}

// Returns the bytes of the ERE whose entry has the number n, as a part of the image; none if there is no ERE.
pub fn ere_bytes<'a, 'b>(image: &'a [u8], index: &'b [u32], n: usize) -> &'a [u8]
    requires { (n < length index.now) × (get_or index.now n 0 ≤ length image.now) }
    ensures { (IsPart image.now image.entry.ref_ptr result.now result.ref_ptr)
        × ((edition : ℕ) (bytes : List ℕ)
        → TellsOf edition Eres image.now (get_or index.now n 0) bytes → result.now ≡ bytes) }
{
    let Some(t) = image_items::text_at(image, index[n] as usize) else {
        return &image[0..0];
    };
    &image[t.start..t.end]
}
