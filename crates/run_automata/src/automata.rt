// Finite automata of an image's EREs, in one slice of words: the pool. Its first words are bounds: what slot k has is
// `pool[pool[k]..pool[k + 1]]`, empty where it has none. Slot n has the automaton of ERE n for whether there is a
// match, slot 16 + n both automata for the leftmost longest match of ERE n.
//
// The pool is filled for a section when the section is entered, with what its instructions ask for, in the order of the
// slots: for `~` first, then for match(). Of the words that are left, each automaton gets its even share if that is
// enough for one with pairs, the fastest; else any of them for one without pairs; and if all are too few, none: then
// its ERE is walked over the shared table.
ghost use Rattle.std.specs.Prelude.{◌≡◌, List, ℕ, ◌+◌, ◌≤◌, ◌<◌, length, replicate};
ghost use Rattle.ere_table.specs.Table.{table_words};
ghost use Rattle.run_image.specs.Table.{Readable, Compiled};
ghost use Rattle.run_automata.specs.Automata.{pool_slots, bound_count, pool_words, automaton_in};
ghost use Rattle.run_automata.specs.Automata.{Bounded, Made, MadeOf, Pooled, Filled};

use crate::uses;
use edition::Edition;

// The words of the bounds.
const BOUNDS: usize = uses::SLOTS + 1;

// The words of the pool.
pub const POOL_WORDS: usize = 13312;

// Compiles ERE n into a table whose other words are zeros then: no place that the ERE doesn't have takes a byte.
fn compile_alone(image: &[u8], index: &[u32], edition: Edition, n: usize, table: &mut [u64])
    requires { (length table.old ≡ table_words)
        × ((xs : List (List ℕ)) × (Readable edition.number image.now index.now xs) × (n < length xs)) }
    ensures { Compiled edition.number image.now index.now n table.new }
{
    table.fill(0);
    run_image::compile(image, index, edition, n, table);
}

// Makes what slot k has of a table's ERE, each automaton with pairs if they fit below `pairs` words, and gives how many
// words it has; 0 if there is no room.
fn derive(t: &[u64], k: usize, d: &mut [u16], pairs: usize) -> usize
    requires { (length t.now ≡ table_words) × (length d.old < 65536) }
    ensures { Made k t.now d.old result d.new }
{
    if k < Edition::ERES {
        return ere_derive::derive(t, d, pairs).unwrap_or(0);
    }
    ere_derive::derive_both(t, d, pairs).unwrap_or(0)
}

// Makes what slot k has of the EREs, and gives how many words it has: 0 if `pairs` is, or there is no room.
fn make(
    image: &[u8],
    index: &[u32],
    edition: Edition,
    k: usize,
    pairs: usize,
    table: &mut [u64],
    d: &mut [u16],
) -> usize
    requires { (length table.old ≡ table_words) × (length d.old < 65536)
        × ((xs : List (List ℕ)) × (Readable edition.number image.now index.now xs)) }
    ensures { (xs : List (List ℕ)) → Readable edition.number image.now index.now xs
        → MadeOf edition.number xs k d.old result d.new }
{
    let n = k % Edition::ERES;
    if (pairs == 0) | (index.len() <= n) {
        return 0;
    }
    compile_alone(image, index, edition, n, table);
    derive(table, k, d, pairs)
}

// Stores what slot k has, and its end.
fn add(
    image: &[u8],
    index: &[u32],
    edition: Edition,
    asked: &[u8],
    k: usize,
    table: &mut [u64],
    pool: &mut [u16],
)
    requires { (length table.old ≡ table_words) × (length asked.now ≡ pool_slots) × (k < pool_slots)
        × ((xs : List (List ℕ)) × (Readable edition.number image.now index.now xs)
        × (Filled edition.number xs pool.old k)) }
    ensures { (xs : List (List ℕ)) → Readable edition.number image.now index.now xs
        → Filled edition.number xs pool.old k
        → Filled edition.number xs pool.new (k + 1) }
{
    let at = pool[k] as usize;
    let pairs = uses::share(asked, k, pool.len() - at);
    let size = make(image, index, edition, k, pairs, table, &mut pool[at..]);
    pool[k + 1] = (at + size) as u16;
}

// Fills the pool, by way of the shared table.
fn fill_pool(
    image: &[u8],
    index: &[u32],
    edition: Edition,
    asked: &[u8],
    table: &mut [u64],
    pool: &mut [u16],
)
    requires { (length table.old ≡ table_words) × (length asked.now ≡ pool_slots) × (bound_count ≤ length pool.old)
        × (length pool.old < 65536)
        × ((xs : List (List ℕ)) × (Readable edition.number image.now index.now xs)) }
    ensures { (xs : List (List ℕ)) → Readable edition.number image.now index.now xs
        → Pooled edition.number xs pool.new }
{
    pool[0] = BOUNDS as u16;
    for k in 0..uses::SLOTS {
        add(image, index, edition, asked, k, table, pool);
    }
}

// Fills the pool with automata of the EREs that the instructions of a section ask for, as far as there is room. The
// shared table is that of no ERE then.
pub fn load_eres(
    image: &[u8],
    index: &[u32],
    edition: Edition,
    program: &[u32],
    table: &mut [u64],
    pool: &mut [u16],
)
    requires { (length table.old ≡ table_words) × (length pool.old ≡ pool_words)
        × ((xs : List (List ℕ)) × (Readable edition.number image.now index.now xs)) }
    ensures { (xs : List (List ℕ)) → Readable edition.number image.now index.now xs
        → Pooled edition.number xs pool.new }
{
    let mut asked = [0u8; uses::SLOTS];
    uses::note_all(program, &mut asked);
    fill_pool(image, index, edition, &asked, table, pool);
}

// Returns what slot k has.
pub fn automaton_of(pool: &[u16], k: usize) -> &[u16]
    requires { Bounded pool.now k }
    ensures { result.now ≡ automaton_in pool.now k }
{
    let from = pool[k] as usize;
    let end = pool[k + 1] as usize;
    &pool[from..end]
}
