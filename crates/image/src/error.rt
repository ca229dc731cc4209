// Why reader and writer write nothing.

// There is no image, or the room is too small for it.
#[derive(Clone, Copy, PartialEq, Eq)]
pub enum CopyError {
    Malformed,
    NoRoom,
}
