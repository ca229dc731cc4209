// The lists of an image, and an index of each: an entry for each of its items.
ghost use Rattle.std.specs.Prelude.{◌≡◌, ◌≤◌, ◌<◌, length};
ghost use Rattle.image_format.specs.Image.{image_bound};
ghost use Rattle.varint.specs.Room.{with_one};
ghost use Rattle.image_index.specs.declared.indexes.Kind.TheVariants.{Constants, Eres, Instructions};
ghost use Rattle.image_index.specs.Lists.{most_of, least_of, EntryAt, ItemsAt, ListAt};

use edition::Edition;
use image_items::Constant;

// The numbers of an instruction: its code, the depth before it, and its first and second number, 0 where the code names
// none.
#[derive(Drop)]
pub struct Numbers {
    pub code: u64,
    pub depth: u64,
    pub first: u64,
    pub second: u64,
}

// What the items of a list are.
#[derive(Clone, Copy)]
pub enum Kind {
    Constants,
    Eres,
    Instructions,
}

// An item's entry in an index, and where the item ends.
#[derive(Drop)]
pub struct Entry {
    pub entry: u32,
    pub end: usize,
}

// How many items a list has, and where it ends.
#[derive(Drop)]
pub struct Listed {
    pub count: usize,
    pub end: usize,
}

// An accepted image has fewer bytes.
pub const IMAGE_BYTES: usize = 65536;

// Makes the entry of the constant at a place: that place. It is none if no accepted image can have the constant; the
// same holds for the other items.
fn constant_entry(image: &[u8], edition: u64, at: usize) -> Option<Entry>
    requires { (at ≤ length image.now) × (length image.now < image_bound) }
    ensures { EntryAt edition Constants image.now at result }
{
    let c = image_items::constant_at(image, at)?;
    if let Constant::Text(t) = c.constant {
        if Edition::TEXT < t.end - t.start {
            return None;
        }
    }
    Some(Entry {
        entry: at as u32,
        end: c.end,
    })
}

// Makes the entry of the ERE at a place: that place. The ERE is compiled to see that it reads.
fn ere_entry(image: &[u8], edition: u64, at: usize) -> Option<Entry>
    requires { (at ≤ length image.now) × (length image.now < image_bound) }
    ensures { EntryAt edition Eres image.now at result }
{
    let e = image_items::text_at(image, at)?;
    let start = e.start;
    let end = e.end;
    let place = at as u32;
    let mut t = [0u64; ere_table::TABLE_WORDS];
    let by = Edition { number: edition };
    if !ere::compile(&image[start..end], by, &mut t) {
        return None;
    }
    Some(Entry { entry: place, end })
}

// Makes the entry of the instruction at a place: six bits for the code, six for the depth, ten each for the first and
// the second number.
fn instruction_entry(image: &[u8], edition: u64, at: usize) -> Option<Entry>
    requires { (at ≤ length image.now) × (length image.now < image_bound) }
    ensures { EntryAt edition Instructions image.now at result }
{
    let i = image_items::instruction_at(image, edition, at)?;
    if (Edition::DEPTH as u64) < i.depth {
        return None;
    }
    if (Edition::INSTRUCTIONS as u64) <= i.first {
        return None;
    }
    if (Edition::INSTRUCTIONS as u64) <= i.second {
        return None;
    }
    Some(Entry {
        entry: (i.code + 64 * i.depth + 4096 * i.first + 4194304 * i.second) as u32,
        end: i.end,
    })
}

// Makes the entry of the item at a place.
fn entry_at(image: &[u8], edition: u64, kind: Kind, at: usize) -> Option<Entry>
    requires { (at ≤ length image.now) × (length image.now < image_bound) }
    ensures { EntryAt edition kind image.now at result }
{
    match kind {
        Kind::Constants => constant_entry(image, edition, at),
        Kind::Eres => ere_entry(image, edition, at),
        Kind::Instructions => instruction_entry(image, edition, at),
    }
}

// Returns the most items that a list can have.
fn most(kind: Kind) -> usize
    ensures { result ≡ most_of kind }
{
    match kind {
        Kind::Constants => Edition::CONSTANTS,
        Kind::Eres => Edition::ERES,
        Kind::Instructions => Edition::INSTRUCTIONS,
    }
}

// Returns the fewest items that a list can have.
fn least(kind: Kind) -> usize
    ensures { result ≡ least_of kind }
{
    match kind {
        Kind::Constants | Kind::Eres => 0,
        Kind::Instructions => 1,
    }
}

// Writes entry k, if the index has one there.
fn put_entry(index: &mut [u32], k: usize, entry: u32)
    ensures { index.new ≡ with_one index.old k entry }
{
    if k < index.len() {
        index[k] = entry;
    }
}

// Reads n items from a place on, and writes their entries, as far as the index goes.
fn items_at(
    image: &[u8],
    edition: u64,
    kind: Kind,
    n: usize,
    first: usize,
    index: &mut [u32],
) -> Option<Listed>
    requires { (first ≤ length image.now) × (length image.now < image_bound) }
    ensures { ItemsAt edition kind image.now n first result index.new }
{
    let mut at = first;
    for k in 0..n {
        let e = entry_at(image, edition, kind, at)?;
        put_entry(index, k, e.entry);
        at = e.end;
    }
    Some(Listed { count: n, end: at })
}

// Reads the list whose count is at a place, and writes its index, as far as the room goes. It is none if no accepted
// image can have the list; what the index has is then left open.
pub fn list_at(
    image: &[u8],
    edition: u64,
    kind: Kind,
    at: usize,
    index: &mut [u32],
) -> Option<Listed>
    requires { (at ≤ length image.now) × (length image.now < image_bound) }
    ensures { ListAt edition kind image.now at result index.new }
{
    let Some((n, first)) = varint::take_number(image, at) else {
        return None;
    };
    if (most(kind) as u64) < n || n < (least(kind) as u64) {
        return None;
    }
    items_at(image, edition, kind, n as usize, first, index)
}
