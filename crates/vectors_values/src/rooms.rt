// A case on a room.
use vectors_frames::ROOM;

// Tells whether `changes`, on a room that is as before, says that the case passes, and leaves the room as it is to be.
pub fn runs<F: FnOnce(&mut [u8]) -> bool>(before: &[u8], after: &[u8], changes: F) -> bool
    requires { F.IsAlwaysCallable changes }
{
    let n = before.len();
    if ROOM < n {
        return false;
    }
    let mut space = io::buffer();
    let room = &mut space[0..n];
    vectors_frames::load(room, before);
    changes(room) && check::same(room, after)
}
