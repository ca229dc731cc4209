// The values of texts between two places of a filter's text: the bytes as they are, or with the escapes of STRINGs
// taken.
ghost use Rattle.std.specs.Prelude.{◌≡◌, ◌+◌, ◌-◌, ◌≤◌, ◌<◌, ◌^◌, length};
ghost use Rattle.ere_grammar.specs.Bytes.{lookup, string_escapes};
ghost use Rattle.varint.specs.Room.{with_all};
ghost use Rattle.program_tokens.specs.Words.{same_bytes};
ghost use Rattle.program_tables.specs.Texts.{byte_or, Inside, value_in, ValueAt};

// A byte of a value, and the place after its spelling.
#[derive(Drop)]
pub struct ValueByte {
    pub byte: u8,
    pub next: usize,
}

// Returns the byte that a backslash and b spell in a STRING, or b where they spell none.
fn unescaped(b: u8) -> u8
    ensures { result ≡ byte_or b (lookup string_escapes b) }
{
    ere_grammar::string_escape_of(b).unwrap_or(b)
}

// Returns the byte of a value that is spelled at place i; the value ends before place `stop`.
fn value_at(s: &[u8], i: usize, stop: usize, escapes: bool) -> ValueByte
    requires { (i < stop) × (stop ≤ length s.now) }
    ensures { ValueAt s.now i stop escapes result }
{
    let b = s[i];
    let j = i + 1;
    if escapes & ((b == b'\\') & (j < stop)) {
        return ValueByte {
            byte: unescaped(s[j]),
            next: j + 1,
        };
    }
    ValueByte { byte: b, next: j }
}

// Counts the bytes of a value.
pub fn value_length(s: &[u8], start: usize, stop: usize, escapes: bool) -> usize
    requires { Inside s.now start stop }
    ensures { result ≡ length (value_in s.now escapes start stop) }
{
    let mut i = start;
    let mut n: usize = 0;
    // Not a `for`: a byte of the value is spelled by one byte or by two.
    while i < stop {
        let v = value_at(s, i, stop, escapes);
        i = v.next;
        n += 1;
    }
    n
}

// Tells whether the values from place a to place p and from place b to place q are equal.
pub fn same_value(s: &[u8], a: usize, p: usize, b: usize, q: usize, escapes: bool) -> bool
    requires { Inside s.now a p × Inside s.now b q }
    ensures { result ≡ same_bytes (value_in s.now escapes a p)
        (value_in s.now escapes b q) }
{
    let mut i = a;
    let mut j = b;
    // Not a `for`: each place goes on by one byte or by two.
    while (i < p) & (j < q) {
        let x = value_at(s, i, p, escapes);
        let y = value_at(s, j, q, escapes);
        if x.byte != y.byte {
            return false;
        }
        i = x.next;
        j = y.next;
    }
    (p <= i) & (q <= j)
}

// Writes the bytes of a value from byte k of a room on, as far as the room goes; returns the index after them.
pub fn put_value(
    s: &[u8],
    start: usize,
    stop: usize,
    escapes: bool,
    room: &mut [u8],
    k: usize,
) -> usize
    requires { Inside s.now start stop × (k + (stop - start) < 2 ^ 64) }
    ensures { (result ≡ k + length (value_in s.now escapes start stop))
        × (room.new ≡ with_all room.old k (value_in s.now escapes start stop)) }
{
    let mut i = start;
    let mut n = k;
    // Not a `for`, as in `value_length`.
    while i < stop {
        let v = value_at(s, i, stop, escapes);
        varint::put_byte(room, n, v.byte);
        i = v.next;
        n += 1;
    }
    n
}
