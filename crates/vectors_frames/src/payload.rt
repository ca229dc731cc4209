// Numbers of a payload, and the room of a case.
ghost use Rattle.std.specs.Prelude.{◌≡◌, ◌+◌, ◌*◌, ◌≤◌, ◌<◌, ◌^◌, length, get_or};
ghost use Rattle.buffer.specs.Parts.{part};
ghost use Rattle.little_endian.specs.Words.{le_value};
ghost use Rattle.vectors_frames.specs.Payload.{number_at, loaded};

// The most bytes that the room of a case has: as many as `io::buffer` gives.
pub const ROOM: usize = 4096;

// Returns a byte as a word.
pub fn wide(b: u8) -> u64
    ensures { result ≡ b }
{
    u64::from(b)
}

// Returns the byte at an index, 0 where the payload has none.
pub fn byte(p: &[u8], at: usize) -> u8
    ensures { result ≡ get_or p.now at 0 }
{
    p.get(at).copied().unwrap_or(0)
}

// Returns the number in the two bytes from an index on, the low byte first; 0 where the payload has no such bytes.
pub fn short(p: &[u8], at: usize) -> usize
    ensures { result ≡ number_at 2 at p.now }
{
    if p.len() < 2 {
        return 0;
    }
    if p.len() - 2 < at {
        return 0;
    }
    usize::from(u16::from_le_bytes([p[at], p[at + 1]]))
}

// Returns the number in the eight bytes from an index on, the low byte first; 0 where the payload has no such bytes.
pub fn word(p: &[u8], at: usize) -> u64
    ensures { result ≡ number_at 8 at p.now }
{
    if p.len() < 8 {
        return 0;
    }
    if p.len() - 8 < at {
        return 0;
    }
    u64::from_le_bytes([
        p[at],
        p[at + 1],
        p[at + 2],
        p[at + 3],
        p[at + 4],
        p[at + 5],
        p[at + 6],
        p[at + 7],
    ])
}

// Puts bytes at the front of a room, as many as it has room for.
pub fn load(room: &mut [u8], bytes: &[u8])
    ensures { room.new ≡ loaded room.old bytes.now }
{
    let n = room.len().min(bytes.len());
    room[0..n].copy_from_slice(&bytes[0..n]);
}
