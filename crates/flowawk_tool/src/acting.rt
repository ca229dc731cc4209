// What the words of the command line ask for.
use front_actions::{Action, actions};
use front_options::{Options, Stage};
use std::io;
use std::io::Write;

// Writes how the program is called.
fn put_usage<W: Write>(file: &mut W) -> io::Result<()> {
    front_files::write_whole(
        file,
        b"usage: flowawk [-b N] [-s] 'FILTER' [FILE..]\n       flowawk [-b N] [-s] -f FILTERFILE [FILE..]\n\
        \x20      flowawk [-b N] [-s] -i IMAGE [FILE..]\n       flowawk -o IMAGE 'FILTER' | -o IMAGE -f FILTERFILE\n\
        \x20      flowawk --check IMAGE | --content IMAGE\n       flowawk -h | -V\n",
    )
}

// Says what is wrong with a word and how the program is called, and returns the status.
fn refuse_usage(rt: &HostRuntime, word: &[u8], reason: &[u8]) -> u64 {
    front_io::refuse_word(rt, word, reason);
    let _ = put_usage(&mut rt.stderr());
    front_choices::USAGE
}

// Refuses words that ask for nothing that there is, and returns the status.
fn refuse_words(rt: &HostRuntime, block: &[u8], o: Options) -> u64 {
    match o.stage {
        Stage::Argument(_) => refuse_usage(rt, b"the last word", b" lacks its argument\n"),
        Stage::Refused => refuse_usage(
            rt,
            front_choices::word(block, o.operand),
            b": no such option, or given twice\n",
        ),
        Stage::Ready | Stage::Operands => {
            let _ = put_usage(&mut rt.stderr());
            front_choices::USAGE
        }
    }
}

// Prints how the program is called, and returns the status.
fn help(rt: &HostRuntime) -> u64 {
    match put_usage(&mut rt.stdout()) {
        Ok(()) => 0,
        Err(error) => {
            front_io::fail(rt, b"standard output", &error);
            front_choices::IO_FAILED
        }
    }
}

// Prints the program's name and edition, and returns the status.
fn version(rt: &HostRuntime) -> u64 {
    if front_io::print(rt, b"flowawk, edition 1\n") {
        return 0;
    }
    front_choices::IO_FAILED
}

// Makes the image that is to be run or written: of the filter in a word, of a filter file, or of an image file.
pub fn make(
    rt: &HostRuntime,
    a: Action,
    block: &[u8],
    o: Options,
    text: &mut [u8],
    image: &mut [u8],
) -> Result<usize, u64> {
    let given = o.given;
    let filter = given[actions::FILTER];
    match a {
        Action::RunImage => front_runs::load_checked(
            rt,
            front_choices::word(block, given[actions::IMAGE]),
            image,
        ),
        Action::RunFile => front_runs::translate_file(
            rt,
            front_choices::word(block, filter),
            text,
            image,
        ),
        Action::TranslateFile => {
            front_runs::translate_file(rt, front_choices::word(block, filter), text, image)
        }
        _ => front_runs::translate(rt, b"filter", front_choices::word(block, o.operand), image),
    }
}

// Checks an image file, and returns the status.
fn check(rt: &HostRuntime, block: &[u8], o: Options, image: &mut [u8]) -> u64 {
    let given = o.given;
    match front_runs::load_checked(rt, front_choices::word(block, given[actions::CHECK]), image) {
        Ok(_) => 0,
        Err(status) => status,
    }
}

// Writes the first n bytes of a room to the file that -o names, and returns the status.
fn write(rt: &HostRuntime, block: &[u8], o: Options, image: &[u8], n: usize) -> u64 {
    if image.len() < n {
        return front_choices::IO_FAILED;
    }
    let given = o.given;
    front_runs::write(
        rt,
        front_choices::word(block, given[actions::OUTPUT]),
        &image[0..n],
    )
}

// Translates a filter to an image file, and returns the status.
fn translate(
    rt: &HostRuntime,
    a: Action,
    block: &[u8],
    o: Options,
    text: &mut [u8],
    image: &mut [u8],
) -> u64 {
    match make(rt, a, block, o, text, image) {
        Ok(n) => write(rt, block, o, image, n),
        Err(status) => status,
    }
}

// Runs the image in the first n bytes of a room over the files that the words name, and returns the status.
fn run_image(
    rt: &HostRuntime,
    a: Action,
    block: &[u8],
    o: Options,
    image: &[u8],
    n: usize,
    lines: &mut [u8],
    output: &mut [u8],
    work: &mut [u8],
    budget: u64,
) -> u64 {
    if image.len() < n {
        return front_choices::IO_FAILED;
    }
    let given = o.given;
    let first = front_choices::first_file(a, o.operand);
    front_runs::run_files(
        rt,
        &image[0..n],
        block,
        first,
        lines,
        output,
        work,
        budget,
        given[actions::COUNTS] != 0,
    )
}

// Returns the budget that the words name. A word that is no budget is said.
pub fn budget(rt: &HostRuntime, block: &[u8], o: Options) -> Option<u64> {
    let given = o.given;
    let k = given[actions::BUDGET];
    let budget = front_choices::budget_for(block, k);
    if budget.is_none() {
        refuse_usage(
            rt,
            front_choices::word(block, k),
            b": no number of steps from 0 to 18446744073709551615\n",
        );
    }
    budget
}

// Runs a filter or an image over the files that the words name, and returns the status.
fn run(
    rt: &HostRuntime,
    a: Action,
    block: &[u8],
    o: Options,
    text: &mut [u8],
    image: &mut [u8],
    lines: &mut [u8],
    output: &mut [u8],
    work: &mut [u8],
) -> u64 {
    let Some(budget) = budget(rt, block, o) else {
        return front_choices::USAGE;
    };
    match make(rt, a, block, o, text, image) {
        Ok(n) => run_image(rt, a, block, o, image, n, lines, output, work, budget),
        Err(status) => status,
    }
}

// Does what the words of the command line ask for, and returns the status.
pub fn act(
    rt: &HostRuntime,
    block: &[u8],
    text: &mut [u8],
    image: &mut [u8],
    content: &mut [u64],
    lines: &mut [u8],
    output: &mut [u8],
    work: &mut [u8],
) -> u64 {
    let o = front_options::read_options(block);
    let a = front_actions::asked_action(o, last_word(rt));
    let given = o.given;
    match a {
        Action::Usage => refuse_words(rt, block, o),
        Action::Help => help(rt),
        Action::Version => version(rt),
        Action::Check => check(rt, block, o, image),
        Action::Content => front_runs::print_content(
            rt,
            front_choices::word(block, given[actions::CONTENT]),
            image,
            content,
            output,
        ),
        Action::TranslateText => translate(rt, a, block, o, text, image),
        Action::TranslateFile => translate(rt, a, block, o, text, image),
        _ => run(rt, a, block, o, text, image, lines, output, work),
    }
}

// Returns the number of the last word of the command line.
pub fn last_word(rt: &HostRuntime) -> usize {
    let n = front_files::word_count(rt);
    if n == 0 { 0 } else { n - 1 }
}

// Does what the command line asks for, and returns the exit status. `words` takes the command line, `text` a filter
// file, and has more bytes than a filter may have, `image` an image, `content` its content, `lines` the input, `output`
// what is printed; `work` is the working room of a run.
pub fn tool(
    rt: &HostRuntime,
    words: &mut [u8],
    text: &mut [u8],
    image: &mut [u8],
    content: &mut [u64],
    lines: &mut [u8],
    output: &mut [u8],
    work: &mut [u8],
) -> u64 {
    let Some(n) = front_files::read_words(rt, words) else {
        front_io::say(rt, b"flowawk: the command line is too long\n");
        return front_choices::USAGE;
    };
    if words.len() < n {
        return front_choices::IO_FAILED;
    }
    act(rt, &words[0..n], text, image, content, lines, output, work)
}
