// The table that the EREs of an image share: it is compiled where its ERE changes.
ghost use Rattle.std.specs.Prelude.{◌≡◌, List, ℕ, ◌<◌, length};
ghost use Rattle.ere_table.specs.Table.{table_words};
ghost use Rattle.run_image.specs.Table.{Readable, Compiled, Prepared};

use edition::Edition;

// The number of no ERE.
pub const NO_ERE: usize = Edition::ERES;

// Compiles ERE n into a table.
pub fn compile(image: &[u8], index: &[u32], edition: Edition, n: usize, table: &mut [u64])
    requires { (length table.old ≡ table_words)
        × ((xs : List (List ℕ)) × (Readable edition.number image.now index.now xs) × (n < length xs)) }
    ensures { Compiled edition.number image.now index.now n table.new }
{
    ere::compile(image_access::ere_bytes(image, index, n), edition, table);
}

// Compiles ERE n, unless the table is that of it already; `last` is the ERE of the table, and so is the answer.
pub fn prepare(
    image: &[u8],
    index: &[u32],
    edition: Edition,
    table: &mut [u64],
    last: usize,
    n: usize,
) -> usize
    requires { (length table.old ≡ table_words)
        × ((xs : List (List ℕ)) × (Readable edition.number image.now index.now xs) × (n < length xs)) }
    ensures { (length table.new ≡ table_words) × (result ≡ n)
        × ((xs : List (List ℕ)) → Readable edition.number image.now index.now xs
        → Prepared edition.number xs table.old last
        → Prepared edition.number xs table.new result) }
{
    if n == last {
        return last;
    }
    compile(image, index, edition, n, table);
    n
}
