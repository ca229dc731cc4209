// What a separator is, found out once and not for each field.
ghost use Rattle.std.specs.Prelude.{◌≡◌, ◌<◌, length};
ghost use Rattle.ere_table.specs.Table.{table_words};
ghost use Rattle.separators.specs.Kinds.{Sized, Tells};

use edition::Edition;

// A separator: blanks, a byte, an ERE, whose table is beside it, or none.
#[derive(Clone, Copy)]
pub enum Kind {
    Blank,
    Byte(u8),
    Pattern,
    Refused,
}

// Compiles a separator that is an ERE into the table.
fn by_pattern(separator: &[u8], edition: Edition, t: &mut [u64]) -> Kind
    requires { (1 < length separator.now) × (length t.old ≡ table_words) }
    ensures { (Tells edition.number separator.now t.new result)
        × (Sized result t.new) }
{
    if ere::compile(separator, edition, t) {
        return Kind::Pattern;
    }
    Kind::Refused
}

// Returns the kind of a separator; writes the table where it is an ERE.
pub fn kind_of(separator: &[u8], edition: Edition, t: &mut [u64]) -> Kind
    requires { 1 < length separator.now → length t.old ≡ table_words }
    ensures { (Tells edition.number separator.now t.new result)
        × (Sized result t.new) }
{
    if separator.len() == 0 {
        return Kind::Refused;
    }
    if 1 < separator.len() {
        return by_pattern(separator, edition, t);
    }
    let b = separator[0];
    if b == b' ' {
        return Kind::Blank;
    }
    Kind::Byte(b)
}
