// Writing to a room as far as the room goes.
ghost use Rattle.std.specs.Prelude.{◌≡◌, ◌+◌, ◌≤◌, ◌<◌, ◌^◌, length};
ghost use Rattle.edition.specs.Limits.{number_bound};
ghost use Rattle.image_format.specs.Numbers.{coded};
ghost use Rattle.varint.specs.Room.{with_one, with_all};

// Writes byte k, if the room has one there.
pub fn put_byte(room: &mut [u8], k: usize, x: u8)
    ensures { room.new ≡ with_one room.old k x }
{
    if k < room.len() {
        room[k] = x;
    }
}

// Writes a number from byte k on, the low group first; returns the index after it.
pub fn put_number(room: &mut [u8], k: usize, n: u64) -> usize
    requires { (n ≤ number_bound) × (k + 8 < 2 ^ 64) }
    ensures { (result ≡ k + length (coded n)) × (room.new ≡ with_all room.old k (coded n)) }
{
    let mut rest = n;
    let mut i = k;
    while 128 <= rest {
        put_byte(room, i, (128 + rest % 128) as u8);
        rest = rest / 128;
        i += 1;
    }
    put_byte(room, i, rest as u8);
    i + 1
}
