// Copies by blocks.
ghost use Rattle.std.specs.Prelude.{◌≡◌, ◌+◌, ◌≤◌, ◌<◌, length};
ghost use Rattle.buffer.specs.Parts.{part, put};
ghost use Rattle.block_copy.specs.Rounded.{blocks};

// Copies the `N` bytes of `src` from index `from` on into `dst` from index `to` on. All are read before one is written:
// 4, 8 or 16 bytes are compiled to one read and one write.
fn copy_block<const N: usize>(dst: &mut [u8], to: usize, src: &[u8], from: usize)
    requires { (to + N ≤ length dst.old) × (from + N ≤ length src.now) }
    ensures { dst.new ≡ put dst.old to (part from N src.now) }
{
    buffer::copy(dst, to, &buffer::bytes_at::<N>(src, from));
}

// Copies at most three bytes: the first, the middle and the last one, which may be the same. No branch tells one from
// three, so none is guessed wrong.
pub fn copy_few(dst: &mut [u8], at: usize, src: &[u8])
    requires { (at + length src.now ≤ length dst.old) × (length src.now < 4) }
    ensures { dst.new ≡ put dst.old at src.now }
{
    if src.len() == 0 {
        return;
    }
    let half = src.len() / 2;
    let last = src.len() - 1;
    let a = src[0];
    let b = src[half];
    let c = src[last];
    dst[at] = a;
    dst[at + half] = b;
    dst[at + last] = c;
}

// Copies at most 16 bytes: the first eight and the last eight, which may overlap, or four and four, or at most three.
pub fn copy_short(dst: &mut [u8], at: usize, src: &[u8])
    requires { (at + length src.now ≤ length dst.old) × (length src.now ≤ 16) }
    ensures { dst.new ≡ put dst.old at src.now }
{
    if src.len() < 4 {
        copy_few(dst, at, src);
        return;
    }
    if src.len() <= 8 {
        let last = src.len() - 4;
        copy_block::<4>(dst, at, src, 0);
        copy_block::<4>(dst, at + last, src, last);
        return;
    }
    let last = src.len() - 8;
    copy_block::<8>(dst, at, src, 0);
    copy_block::<8>(dst, at + last, src, last);
}

// Copies all of `src` into `dst` from index `at` on: blocks of 16 bytes, and the last 16 bytes, which may overlap the
// block before them.
pub fn copy(dst: &mut [u8], at: usize, src: &[u8])
    requires { at + length src.now ≤ length dst.old }
    ensures { dst.new ≡ put dst.old at src.now }
{
    if src.len() < 16 {
        copy_short(dst, at, src);
        return;
    }
    let last = src.len() - 16;
    for k in (0..last).step_by(16) {
        copy_block::<16>(dst, at + k, src, k);
    }
    copy_block::<16>(dst, at + last, src, last);
}

// Copies `n` bytes of `src` from index `from` on into `dst` from index `at` on, and those after them up to a multiple
// of 16, one block after the other.
fn copy_over_long(dst: &mut [u8], at: usize, src: &[u8], from: usize, n: usize)
    requires { (at + n + 15 ≤ length dst.old) × (from + n + 15 ≤ length src.now) }
    ensures { dst.new ≡ put dst.old at (part from (blocks n) src.now) }
{
    for k in (0..n).step_by(16) {
        copy_block::<16>(dst, at + k, src, from + k);
    }
}

// Copies `n` bytes and those after them in the same way. Most texts fit one block.
pub fn copy_over(dst: &mut [u8], at: usize, src: &[u8], from: usize, n: usize)
    requires { (at + n + 15 ≤ length dst.old) × (from + n + 15 ≤ length src.now) }
    ensures { dst.new ≡ put dst.old at (part from (blocks n) src.now) }
{
    if 16 < n {
        copy_over_long(dst, at, src, from, n);
        return;
    }
    if 0 < n {
        copy_block::<16>(dst, at, src, from);
    }
}
