// Runs of instructions, stored from instruction n on.
ghost use Rattle.std.specs.Prelude.{◌≡◌, [], ◌∷◌, ◌+◌, ◌≤◌, ◌<◌, set};
ghost use Rattle.std.proofs.lemmas.List.Edits.{sets};
ghost use Rattle.program_words.specs.Words.{Fits, word, record_words, ere_words, not_words, both_words, either_words, print_words};

use program_words::words;

// Stores instruction n, if there is room.
pub fn put(section: &mut [u64], n: usize, instruction: u64)
    ensures { section.new ≡ set section.old n instruction }
{
    if n < section.len() {
        section[n] = instruction;
    }
}

// Stores instruction n with its operand, if there is room, and gives the number of the next.
pub fn emit(section: &mut [u64], n: usize, op: u64, depth: u64, operand: u64) -> usize
    requires { Fits op depth operand 0 × (n < 1048576) }
    ensures { (result ≡ n + 1)
        × (section.new ≡ sets section.old n (word op depth operand ∷ [])) }
{
    put(section, n, words::instruction(op, depth, operand, 0));
    n + 1
}

// Stores an instruction on `$0`: constant 0, field, and it.
fn emit_on_record(section: &mut [u64], n: usize, op: u64, depth: u64, operand: u64) -> usize
    requires { (n < 1000000) × (op < 256) × (depth < 65000) × (operand < 1048576) }
    ensures { (result ≡ n + 3) × (section.new ≡ sets section.old n (record_words op depth operand)) }
{
    emit(section, n, words::CONSTANT, depth, words::ZERO);
    emit(section, n + 1, words::FIELD, depth + 1, 0);
    emit(section, n + 2, op, depth + 1, operand)
}

// Stores an ERE alone: constant 0, field, matches.
pub fn emit_ere(section: &mut [u64], n: usize, depth: u64, place: usize) -> usize
    requires { (n < 1000000) × (depth < 65000) × (place < 1048576) }
    ensures { (result ≡ n + 3) × (section.new ≡ sets section.old n (ere_words depth place)) }
{
    emit_on_record(section, n, words::MATCHES, depth, place as u64)
}

// Stores `print` alone: constant 0, field, print 1.
pub fn emit_print(section: &mut [u64], n: usize) -> usize
    requires { n < 1000000 }
    ensures { (result ≡ n + 3) × (section.new ≡ sets section.old n print_words) }
{
    emit_on_record(section, n, words::PRINT, 0, 1)
}

// Stores not, not.
fn emit_nots(section: &mut [u64], n: usize, depth: u64)
    requires { (n < 1000000) × (depth < 65000) }
    ensures { section.new ≡ sets section.old n (not_words depth) }
{
    emit(section, n, words::NOT, depth + 1, 0);
    emit(section, n + 1, words::NOT, depth + 1, 0);
}

// Stores what follows the right side of `&&`, and then the jump before it, which is instruction j.
pub fn emit_both(section: &mut [u64], n: usize, depth: u64, j: usize) -> usize
    requires { (n < 1000000) × (j < 1000000) × (depth < 65000) }
    ensures { (result ≡ n + 4)
        × (section.new
        ≡ sets (sets section.old n (both_words n depth)) j (word 28 (depth + 1) (n + 3) ∷ [])) }
{
    emit_nots(section, n, depth);
    emit(section, n + 2, words::JUMP, depth + 1, (n + 4) as u64);
    emit(section, n + 3, words::CONSTANT, depth, words::ZERO);
    emit(section, j, words::JUMP_IF_FALSE, depth + 1, (n + 3) as u64);
    n + 4
}

// Stores what follows the right side of `||`, and then the three instructions before it, from j on.
pub fn emit_either(section: &mut [u64], n: usize, depth: u64, j: usize) -> usize
    requires { (n < 1000000) × (j < 1000000) × (depth < 65000) }
    ensures { (result ≡ n + 2)
        × (section.new
        ≡ sets (sets section.old n (not_words depth)) j (either_words j depth (n + 2))) }
{
    emit_nots(section, n, depth);
    emit(section, j, words::JUMP_IF_FALSE, depth + 1, (j + 3) as u64);
    emit(section, j + 1, words::CONSTANT, depth, words::ONE);
    emit(section, j + 2, words::JUMP, depth + 1, (n + 2) as u64);
    n + 2
}
