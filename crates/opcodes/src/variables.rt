// The special variables of an edition.
ghost use Rattle.std.specs.Prelude.{◌≡◌};
ghost use Rattle.semantics.specs.Variables.{special_count, special_of, assignable};
ghost use Rattle.opcodes.specs.Sources.{source_in};

const SPECIALS: usize = 7;

// Where the value of a variable is: in its slot, or counted.
pub const STORED: u64 = 0;

pub const FIELD_COUNT: u64 = 1;

pub const RECORD_COUNT: u64 = 2;

// For each, whether it can be assigned.
const ASSIGNABLE: [bool; SPECIALS] = [false, false, true, true, true, false, false];

// Returns how many special variables there are; the users' variables come after them.
pub fn specials(edition: u64) -> u64
    ensures { result ≡ special_count edition }
{
    SPECIALS as u64
}

// Tells whether a variable can be assigned.
pub fn assignable(edition: u64, v: u64) -> bool
    ensures { result ≡ assignable edition v }
{
    if SPECIALS as u64 <= v {
        return true;
    }
    ASSIGNABLE[v as usize]
}

// Returns where the value of a variable is.
pub fn source(edition: u64, v: u64) -> u64
    ensures { result ≡ source_in (special_of edition v) }
{
    match v {
        0 => FIELD_COUNT,
        1 => RECORD_COUNT,
        _ => STORED,
    }
}
