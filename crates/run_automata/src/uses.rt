// Which automata the instructions of a section ask for, and how much of the pool each gets.
//
// There is a slot for each ERE of `~`, for one automaton, and after those a slot for each ERE of match(), for two. A
// list of bytes says for each slot whether an instruction asks for it (1) or none does (0).
ghost use Rattle.std.specs.Prelude.{◌≡◌, ◌≤◌, ◌<◌, length};
ghost use Rattle.run_automata.specs.Automata.{pool_slots};

use edition::Edition;

// How many slots there are.
pub const SLOTS: usize = 2 * Edition::ERES;

// Notes what an instruction of a code and a first number asks for.
fn note(asked: &mut [u8], code: u64, n: usize)
    requires { length asked.old ≡ pool_slots }
{
    if Edition::ERES <= n {
        return;
    }
    match code {
        22 => asked[n] = 1,
        23 => asked[Edition::ERES + n] = 1,
        _ => {}
    }
}

// Notes what the instructions of a section ask for.
pub fn note_all(program: &[u32], asked: &mut [u8])
    requires { length asked.old ≡ pool_slots }
{
    for k in 0..program.len() {
        let i = image_access::instruction(program, k);
        note(asked, i.code, i.first as usize);
    }
}

// Returns how many automata slot k asks for.
fn count(asked: &[u8], k: usize) -> usize
    requires { k < length asked.now }
    ensures { result ≤ 2 }
{
    if asked[k] == 0 {
        return 0;
    }
    if k < Edition::ERES {
        return 1;
    }
    2
}

// Returns how many automata the slots from k on ask for.
fn wanted(asked: &[u8], k: usize) -> usize
    requires { length asked.now ≡ pool_slots }
{
    let mut n = 0;
    for j in k..asked.len() {
        n += count(asked, j);
    }
    n
}

// Returns the even share of each automaton that slot k asks for, of `words` words; 0 if it asks for none.
pub fn share(asked: &[u8], k: usize, words: usize) -> usize
    requires { (length asked.now ≡ pool_slots) × (k < pool_slots) }
{
    if asked[k] == 0 {
        return 0;
    }
    let n = wanted(asked, k);
    if n == 0 {
        return 0;
    }
    words / n
}
