// What every program that runs test cases from data files needs: numbers of a payload, the room of a case, the frames
// of a file, and a group's line. Nothing here uses a crate that is under test.
//
// A program keeps its groups, the function that judges a case of each, and the walk through a group's file:
//
//     let mut tally = vectors_frames::start();
//     while 0 < tally.left {
//         tally = vectors_frames::counted(tally, look(group, file, room));
//     }
//
// where `look` reads the next frame by `vectors_frames::next` and judges its payload.
#![tactic(auto)]

mod frames;
mod lines;
mod payload;
mod tally;

pub use frames::{Cut, next};
pub use lines::{close, open};
pub use payload::{ROOM, byte, load, short, wide, word};
pub use tally::{Tally, Verdict, counted, judged, start};
