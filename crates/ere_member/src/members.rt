// One byte of a bracket, plain or escaped.
ghost use Rattle.std.specs.Prelude.{◌≡◌, [], ◌∷◌, drop};
ghost use Rattle.ere_grammar.specs.Read.{begins, read_escape, read_member, joins as joinsOf};
ghost use Rattle.ere_member.specs.Members.{Reads, class_marks};

// Tells whether the byte b is at an index.
pub fn stands(ere: &[u8], at: usize, b: u8) -> bool
    ensures { result ≡ begins (b ∷ []) (drop at ere.now) }
{
    ere.get(at).copied() == Some(b)
}

// Tells whether `:`, `=` or `.` is at an index: after a `[` they would open a class by name.
fn names_class(ere: &[u8], at: usize) -> bool
    ensures { result ≡ begins class_marks (drop at ere.now) }
{
    match ere.get(at).copied() {
        Some(b) => (b == b':') | (b == b'=') | (b == b'.'),
        None => false,
    }
}

// Tells whether a `-` is at an index, with a byte after it that does not end the bracket.
pub fn joins(ere: &[u8], at: usize) -> bool
    ensures { result ≡ joinsOf (drop at ere.now) }
{
    if !stands(ere, at, b'-') {
        return false;
    }
    match ere.get(at + 1).copied() {
        Some(b) => b != b']',
        None => false,
    }
}

// Reads the byte that is escaped by a backslash before an index, and the index after it.
pub fn read_escape(ere: &[u8], at: usize) -> Option<(u8, usize)>
    ensures { Reads result ere.now at (read_escape (drop at ere.now)) }
{
    let b = ere.get(at).copied()?;
    let c = ere_grammar::escape_of(b)?;
    Some((c, at + 1))
}

// Reads the byte of a bracket at an index, and the index after it.
pub fn read_member(ere: &[u8], at: usize) -> Option<(u8, usize)>
    ensures { Reads result ere.now at (read_member (drop at ere.now)) }
{
    let b = ere.get(at).copied()?;
    if b == b'\\' {
        return read_escape(ere, at + 1);
    }
    if b == b'[' && names_class(ere, at + 1) {
        return None;
    }
    Some((b, at + 1))
}
