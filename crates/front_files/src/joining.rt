// Files joined.
ghost use Rattle.lists.specs.Answers.{option_of};
ghost use Rattle.std.specs.Prelude.{◌≡◌, ◌≤◌, length};
ghost use Rattle.front_files.specs.Joining.{separated, separated_to};

// Ends the first `at` bytes with a newline, if there are any and the last is none: so the next file starts a line.
// Returns how many bytes are filled then, or `None` where the newline does not fit.
pub fn separate(room: &mut [u8], at: usize) -> Option<usize>
    requires { at ≤ length room.old }
    ensures { (option_of result ≡ separated_to room.old at)
        × (room.new ≡ separated room.old at) }
{
    if at == 0 {
        return Some(at);
    }
    if room[at - 1] == b'\n' {
        return Some(at);
    }
    if room.len() <= at {
        return None;
    }
    room[at] = b'\n';
    Some(at + 1)
}
