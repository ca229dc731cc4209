// The program over rooms that get more bytes where they are too small.
use crate::acting;
use front_actions::{Action, actions};
use front_files::Growing;
use front_options::Options;

// The words of the content of an image at most.
const CONTENT: usize = 1048576;

// The bytes of the lines of such a content: the digits of a word and the newline are 21 at most.
const CONTENT_LINES: usize = 22020096;

// Reads the words of the command line. Returns how many bytes they are, if they fit.
fn read_words(rt: &HostRuntime, words: &mut Growing) -> Option<usize> {
    for _ in 0..u64::MAX {
        if let Some(n) = front_files::read_words(rt, words.bytes.as_mut_slice()) {
            return Some(n);
        }
        if !words.grow() {
            return None;
        }
    }
    None
}

// Gives a room more bytes until it has so many, or can get no more.
fn grow_to(room: &mut Growing, size: usize) {
    for _ in 0..u64::MAX {
        if size <= room.bytes.len() || !room.grow() {
            return;
        }
    }
}

// Runs a filter or an image over the files that the words name, and returns the status.
fn run(
    rt: &HostRuntime,
    a: Action,
    block: &[u8],
    o: Options,
    text: &mut [u8],
    image: &mut [u8],
    lines: &mut Growing,
    output: &mut Growing,
    work: &mut [u8],
) -> u64 {
    let Some(budget) = acting::budget(rt, block, o) else {
        return front_choices::USAGE;
    };
    let n = match acting::make(rt, a, block, o, text, image) {
        Ok(n) => n,
        Err(status) => return status,
    };
    if image.len() < n {
        return front_choices::IO_FAILED;
    }
    let given = o.given;
    let first = front_choices::first_file(a, o.operand);
    front_runs::run_files_growing(
        rt,
        &image[0..n],
        block,
        first,
        lines,
        output,
        work,
        budget,
        given[actions::COUNTS] != 0,
    )
}

// Does what the command line asks for, and returns the exit status, as `tool` does.
pub fn tool_growing(
    rt: &HostRuntime,
    words: &mut Growing,
    text: &mut [u8],
    image: &mut [u8],
    content: &mut Vec<u64>,
    lines: &mut Growing,
    output: &mut Growing,
    work: &mut [u8],
) -> u64 {
    let Some(n) = read_words(rt, words) else {
        front_io::say(rt, b"flowawk: the command line is too long\n");
        return front_choices::USAGE;
    };
    if words.bytes.len() < n {
        return front_choices::IO_FAILED;
    }
    let block = &words.bytes.as_slice()[0..n];
    let o = front_options::read_options(block);
    let a = front_actions::asked_action(o, acting::last_word(rt));
    match a {
        Action::RunText => run(rt, a, block, o, text, image, lines, output, work),
        Action::RunFile => run(rt, a, block, o, text, image, lines, output, work),
        Action::RunImage => run(rt, a, block, o, text, image, lines, output, work),
        Action::Content => {
            let _ = content.resize(CONTENT, 0);
            grow_to(output, CONTENT_LINES);
            acting::act(
                rt,
                block,
                text,
                image,
                content.as_mut_slice(),
                lines.bytes.as_mut_slice(),
                output.bytes.as_mut_slice(),
                work,
            )
        }
        _ => acting::act(
            rt,
            block,
            text,
            image,
            content.as_mut_slice(),
            lines.bytes.as_mut_slice(),
            output.bytes.as_mut_slice(),
            work,
        ),
    }
}
