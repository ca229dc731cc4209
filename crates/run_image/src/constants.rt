// Constants as words: a number's distance from the least one, or after those a text's place in the image and its size.
ghost use Rattle.std.specs.Prelude.{◌≡◌, List, ◌≤◌, ◌<◌, length};
ghost use Rattle.std.proofs.Math.Option.{some};
ghost use Rattle.lists.specs.Elements.{nth};
ghost use Rattle.image_format.specs.Image.{Constant};
ghost use Rattle.run_image.specs.Constants.{Decoded, Listed, Words};

// The first word of a text: 2^60, after all numbers.
pub const TEXTS: u64 = 1152921504606846976;

// Returns the word of constant k.
fn word_of(image: &[u8], index: &[u32], k: usize) -> u64
    requires { (k < length index.now)
        × ((xs : List Constant) × (Listed image.now index.now xs) × (k < length xs)) }
    ensures { (xs : List Constant) (a : Constant) → Listed image.now index.now xs
        → nth xs k ≡ some a → Decoded image.now result a }
{
    let c = image_access::constant(image, index, k).unwrap();
    match c.constant {
        image_items::Constant::Number(n) => number::ZERO + n,
        image_items::Constant::Text(t) => TEXTS + 65536 * t.start as u64 + (t.end - t.start) as u64,
    }
}

// Writes the words of the first n constants.
pub fn decode(image: &[u8], index: &[u32], n: usize, words: &mut [u64])
    requires { (n ≤ length index.now) × (n ≤ length words.old)
        × ((xs : List Constant) × (Listed image.now index.now xs) × (n ≡ length xs)) }
    ensures { (length words.new ≡ length words.old)
        × ((xs : List Constant) → Listed image.now index.now xs → n ≡ length xs
        → Words image.now words.new xs) }
{
    for k in 0..n {
        words[k] = word_of(image, index, k);
    }
}
