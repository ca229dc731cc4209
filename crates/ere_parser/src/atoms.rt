// Atoms that are no groups: a byte, a dot, an escape, a bracket.
ghost use Rattle.std.specs.Prelude.{◌+◌, ◌<◌, length, get_or, drop};
ghost use Rattle.ere_grammar.specs.Read.{read_atom, read_escape, only_byte};
ghost use Rattle.ere_bracket.specs.Answer.{ClassReads};

use ere_bracket::brackets;
use ere_bracket::brackets::Bracket;
use ere_byte_set::classes;
use ere_member::members;

// Reads the byte that is escaped by a backslash before an index.
fn read_escaped(ere: &[u8], at: usize) -> Option<Bracket>
    ensures { ClassReads result ere.now at (only_byte (read_escape (drop at ere.now))) }
{
    let (b, next) = members::read_escape(ere, at)?;
    let words = classes::single(b);
    Some(Bracket { next, words })
}

// Reads the atom at an index, which is no group, as a class of bytes.
pub fn read_atom(ere: &[u8], at: usize) -> Option<Bracket>
    requires { at < length ere.now }
    ensures { ClassReads result ere.now at
        (read_atom (get_or ere.now at 0) (drop (at + 1) ere.now)) }
{
    let b = ere[at];
    let next = at + 1;
    if b == b'\\' {
        return read_escaped(ere, next);
    }
    if b == b'.' {
        let words = classes::full();
        return Some(Bracket { next, words });
    }
    if b == b'[' {
        return brackets::read_bracket(ere, next);
    }
    if !ere_grammar::is_plain(b) {
        return None;
    }
    let words = classes::single(b);
    Some(Bracket { next, words })
}
