// Bytes written whole.
ghost use Rattle.std.specs.Prelude.{◌+◌, ◌≤◌, length, drop, IfOk, OnOk};
ghost use Rattle.std.specs.Io.KnownBytes.{Appends, WriteAppends};

use std::hint;
use std::io::{Error, ErrorKind, Result, Write};

// Tells whether a call that failed is to be made again: a signal interrupted it, or a descriptor that does not block
// takes nothing yet. There is no call that waits.
fn again(error: &Error) -> bool {
    let kind = error.kind();
    if kind == ErrorKind::Interrupted {
        return true;
    }
    if kind == ErrorKind::WouldBlock {
        hint::spin_loop();
        return true;
    }
    false
}

// Writes once, from byte `at` on. Returns how many bytes the write took, 0 where it is to be made again.
fn write_once<W: Write>(file: &mut W, bytes: &[u8], at: usize) -> Result<usize>
    requires { at ≤ length bytes.now }
    ensures inside { IfOk result (λ n. at + n ≤ length bytes.now) }
    ensures taken { WriteAppends (W.contents file.old) (W.contents file.new) result (drop at bytes.now) }
{
    match file.write(&bytes[at..]) {
        Ok(0) => Err(Error::from(ErrorKind::WriteZero)),
        Ok(n) => Ok(n),
        Err(e) => {
            if again(&e) {
                return Ok(0);
            }
            Err(e)
        }
    }
}

// Writes all bytes; an error where a call failed. Of a writer that tells what it holds, they are behind that.
pub fn write_whole<W: Write>(file: &mut W, bytes: &[u8]) -> Result<()>
    ensures { OnOk result (Appends (W.contents file.old) (W.contents file.new) bytes.now) }
{
    let mut at: usize = 0;
    for _ in 0..u64::MAX {
        if bytes.len() <= at {
            return Ok(());
        }
        at += write_once(file, bytes, at)?;
    }
    Err(Error::from(ErrorKind::TimedOut))
}
