// Texts and numbers, written to a room as far as the room goes.
ghost use Rattle.std.specs.Prelude.{◌+◌, ◌≤◌, ◌<◌, ◌^◌, length};
ghost use Rattle.decimals.specs.Decimal.{decimal_digits};
ghost use Rattle.front_lines.specs.Puts.{Puts};

// Writes a text from byte k on; returns the index after it.
pub fn put_text(room: &mut [u8], k: usize, text: &[u8]) -> usize
    requires { k + length text.now < 2 ^ 64 }
    ensures { Puts room.old k text.now result room.new }
{
    for (i, b) in text.iter().enumerate() {
        varint::put_byte(room, k + i, *b);
    }
    k + text.len()
}

// Writes a number's decimal digits from byte k on; returns the index after them.
pub fn put_decimal(room: &mut [u8], k: usize, n: u64) -> usize
    requires { k + 20 < 2 ^ 64 }
    ensures { Puts room.old k (decimal_digits n) result room.new × (result ≤ k + 20) }
{
    if n < 10 {
        varint::put_byte(room, k, b'0' + n as u8);
        return k + 1;
    }
    let end = put_decimal(room, k, n / 10);
    varint::put_byte(room, end, b'0' + (n % 10) as u8);
    end + 1
}
