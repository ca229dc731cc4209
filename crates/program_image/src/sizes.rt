// Sizes that are judged once the whole text is read.
ghost use Rattle.std.specs.Prelude.{◌≡◌, true, ◌+◌, ◌*◌, ◌≤◌, ◌<◌, length};
ghost use Rattle.lists.specs.Elements.{all};
ghost use Rattle.semantics.specs.Check.{small_constant};
ghost use Rattle.program_tables.specs.Tables.{entry_in, meant, InsideText, AllInside, entries_from};
ghost use Rattle.program_image.specs.Written.{instructions_of};
ghost use Rattle.program_image.specs.Fitting.{depths_fit};

use edition::Edition;

// Tells whether no instruction of a section has too many operands before it.
pub fn depths_fit(section: &[u64], count: usize) -> bool
    requires { count ≤ length section.now }
    ensures { result ≡ depths_fit (instructions_of section.now count) }
{
    for i in 0..count {
        if (Edition::DEPTH as u64) < program_words::depth_in(section[i]) {
            return false;
        }
    }
    true
}

// Tells whether a constant is a number, or a text that is not too long.
fn constant_fits(s: &[u8], table: &[u64], k: usize) -> bool
    requires { (2 * k + 1 < length table.now) × InsideText s.now (entry_in table.now k) }
    ensures { result ≡ small_constant (meant s.now true (entry_in table.now k)) }
{
    let e = program_tables::entry_in(table, k);
    if e.stop == 0 {
        return true;
    }
    program_tables::value_length(s, e.value, e.stop, true) <= Edition::TEXT
}

// Tells whether no constant of the first n is too long.
pub fn constants_fit(s: &[u8], table: &[u64], n: usize) -> bool
    requires { (2 * n ≤ length table.now) × AllInside s.now table.now n }
    ensures { result ≡ all small_constant (entries_from s.now true table.now 0 n) }
{
    for k in 0..n {
        if !constant_fits(s, table, k) {
            return false;
        }
    }
    true
}
