// The program: `flowawk_tool` with rooms of its own, which get as large as they need to be. It ends with the status.
#![tactic(auto)]

use edition::Edition;
use front_files::Growing;
use std::alloc::AllocError;
use std::process::ExitCode;

// Bytes that the words of the command line, the lines and the output have at most.
const WORDS: usize = 8388608;

const LINES: usize = 1073741824;

const OUTPUT: usize = 1073741824;

// Bytes of the rooms of a filter file and of an image.
const TEXT: usize = 16384;

const IMAGE: usize = 1048576;

// Does what the command line asks for, and returns the status.
fn status(rt: &HostRuntime) -> Result<u64, AllocError> {
    let mut words = Growing::new(rt.alloc(), WORDS);
    let mut text = [0u8; TEXT];
    let mut image = Vec::from_elem(rt.alloc(), 0u8, IMAGE)?;
    let mut content = Vec::new(rt.alloc());
    let mut lines = Growing::new(rt.alloc(), LINES);
    let mut output = Growing::new(rt.alloc(), OUTPUT);
    // a first room, so that what prints little runs once
    output.grow();
    let mut work = [0u8; Edition::WORKING_ROOM];
    Ok(flowawk_tool::tool_growing(
        rt,
        &mut words,
        &mut text,
        image.as_mut_slice(),
        &mut content,
        &mut lines,
        &mut output,
        &mut work,
    ))
}

fn main(rt: HostRuntime) -> ExitCode {
    match status(&rt) {
        // the system takes the low byte of a status
        Ok(s) => ExitCode::from((s % 256) as u8),
        Err(_) => {
            front_io::say(&rt, b"flowawk: Cannot allocate memory\n");
            ExitCode::from(74)
        }
    }
}
