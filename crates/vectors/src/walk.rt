// The walk through a group's file.
use crate::groups;
use crate::groups::Group;
use std::io::{Read, Result};
use vectors_frames::{Cut, Tally, Verdict};

// Bytes of the room of a case's payload.
const PAYLOAD: usize = 65536;

// Reads the next frame into the room and judges its case.
fn look<R: Read>(group: Group, file: &mut R, room: &mut [u8]) -> Verdict {
    match vectors_frames::next(file, room) {
        Ok(Some(n)) => vectors_frames::judged(groups::passes(group, &room[0..n])),
        Ok(None) => Verdict::End,
        Err(Cut) => Verdict::Cut,
    }
}

// Judges every case of a file.
fn walk<R: Read>(group: Group, file: &mut R, room: &mut [u8]) -> Tally {
    let mut tally = vectors_frames::start();
    while 0 < tally.left {
        tally = vectors_frames::counted(tally, look(group, file, room));
    }
    tally
}

// Runs a group, whose file has its name, and writes its line.
pub fn run(rt: &HostRuntime, group: Group, name: &[u8]) -> Result<()> {
    let Some(mut file) = vectors_frames::open(rt, name)? else {
        return Ok(());
    };
    let mut room = [0u8; PAYLOAD];
    let tally = walk(group, &mut file, &mut room);
    vectors_frames::close(rt, file, tally)
}
