// The program, as a function for a caller that lends its memory.
use crate::acting;

// Does what the command line asks for, and returns the exit status.
pub fn flowawk_main(
    rt: &HostRuntime,
    words: &mut [u8],
    text: &mut [u8],
    image: &mut [u8],
    content: &mut [u64],
    lines: &mut [u8],
    output: &mut [u8],
    work: &mut [u8],
) -> u64 {
    acting::tool(rt, words, text, image, content, lines, output, work)
}
