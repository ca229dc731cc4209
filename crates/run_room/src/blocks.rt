// Copies by blocks of 16 bytes.
ghost use Rattle.std.specs.Prelude.{◌≡◌, ◌⊎◌, ◌+◌, ◌≤◌, length};
ghost use Rattle.buffer.specs.Parts.{part, put};
ghost use Rattle.block_copy.specs.Rounded.{blocks};

// Copies 16 bytes: all are read before one is written.
fn move_16(s: &mut [u8], from: usize, to: usize)
    requires { (from + 16 ≤ length s.old) × (to + 16 ≤ length s.old) }
    ensures { s.new ≡ put s.old to (part from 16 s.old) }
{
    let block: [u8; 16] = buffer::bytes_at(s, from);
    buffer::copy(s, to, &block);
}

// Copies `n` bytes, and those after them up to a multiple of 16, one block after the other.
fn copy_long(s: &mut [u8], from: usize, to: usize, n: usize)
    requires { (from + n + 15 ≤ length s.old) × (to + n + 15 ≤ length s.old) × ((to ≤ from) ⊎ (from + n + 15 ≤ to)) }
    ensures { s.new ≡ put s.old to (part from (blocks n) s.old) }
{
    for k in (0..n).step_by(16) {
        move_16(s, from + k, to + k);
    }
}

// Copies `n` bytes, and those after them up to a multiple of 16, to a lower index or to one after them. Most texts fit
// one block.
pub fn copy_blocks(s: &mut [u8], from: usize, to: usize, n: usize)
    requires { (from + n + 15 ≤ length s.old) × (to + n + 15 ≤ length s.old) × ((to ≤ from) ⊎ (from + n + 15 ≤ to)) }
    ensures { s.new ≡ put s.old to (part from (blocks n) s.old) }
{
    if 16 < n {
        copy_long(s, from, to, n);
        return;
    }
    if 0 < n {
        move_16(s, from, to);
    }
}

// Copies a block and the `n` bytes after it in the same way.
pub fn copy_headed(s: &mut [u8], from: usize, to: usize, n: usize)
    requires { (from + 16 + n + 15 ≤ length s.old) × (to + 16 + n + 15 ≤ length s.old)
        × ((to ≤ from) ⊎ (from + 16 + n + 15 ≤ to)) }
    ensures { s.new ≡ put s.old to (part from (16 + blocks n) s.old) }
{
    move_16(s, from, to);
    copy_blocks(s, from + 16, to + 16, n);
}
