// The options that the words of a command line give.
ghost use Rattle.std.specs.Prelude.{◌≡◌, ◌<◌, ◌≤◌, length};
ghost use Rattle.front_words.specs.Words.{words_of};
ghost use Rattle.front_options.specs.Kinds.{number_in, kind_of, Listed};
ghost use Rattle.front_options.specs.Reading.{started, taken, refused, with_operand, with_option, option_in, step_of, options_of};

// What the next word may be: an option, the argument of the option with this number, or an operand; or a word is
// refused.
#[derive(Clone, Copy, PartialEq, Eq)]
pub enum Stage {
    Ready,
    Argument(usize),
    Operands,
    Refused,
}

// What was read so far. `operand` is the number of the first word that is no option, or of the word that is refused.
// Entry o of `given` is the number of the argument of option o, or of the option itself where it takes none. Words are
// numbered from 1; 0 is none.
#[derive(Clone, Copy)]
pub struct Options {
    pub stage: Stage,
    pub operand: usize,
    pub given: [usize; 10],
}

// What a word is: the option with this number, no option, or an option that there is not.
#[derive(Clone, Copy, PartialEq, Eq)]
enum Kind {
    Known(usize),
    Operand,
    Unknown,
}

// How many options there are.
const OPTIONS: usize = 10;

// The first option that takes an argument.
const WITH_ARGUMENT: usize = 4;

// Returns the number of the first word of a block that is equal to a word, or how many there are where none is.
fn number_in(block: &[u8], word: &[u8]) -> usize
    ensures { result ≡ number_in (words_of block.now) word.now }
{
    let mut at: usize = 0;
    let mut k: usize = 0;
    while at < block.len() {
        let w = front_words::word_at(block, at);
        let end = w.end;
        if buffer::equal(&block[at..end], word) {
            return k;
        }
        at = w.next;
        k += 1;
    }
    k
}

// Returns the kind of a word.
fn kind_of(word: &[u8]) -> Kind
    ensures { (result ≡ kind_of word.now) × Listed result }
{
    let n = number_in(
        b"--\0-s\0-h\0-V\0-b\0-f\0-i\0-o\0--check\0--content\0",
        word,
    );
    if n < OPTIONS {
        return Kind::Known(n);
    }
    if word.len() < 2 {
        return Kind::Operand;
    }
    if word[0] == b'-' {
        return Kind::Unknown;
    }
    Kind::Operand
}

// Returns the options of no words.
fn start() -> Options
    ensures { result ≡ started }
{
    Options {
        stage: Stage::Ready,
        operand: 0,
        given: [0; 10],
    }
}

// Notes word k as that of an option, if there is one with this number.
fn take(o: Options, k: usize, option: usize) -> Options
    ensures { result ≡ taken o k option }
{
    let mut given = o.given;
    if option < OPTIONS {
        given[option] = k;
    }
    Options {
        stage: Stage::Ready,
        given,
        ..o
    }
}

// Refuses word k.
fn refuse(o: Options, k: usize) -> Options
    ensures { result ≡ refused o k }
{
    Options {
        stage: Stage::Refused,
        operand: k,
        ..o
    }
}

// Notes word k as an operand: the first one counts.
fn operand_in(o: Options, k: usize) -> Options
    ensures { result ≡ with_operand o k }
{
    if o.operand == 0 {
        return Options {
            stage: Stage::Operands,
            operand: k,
            ..o
        };
    }
    o
}

// Takes word k, an option that takes an argument or none.
fn known(o: Options, k: usize, option: usize) -> Options
    requires { option < 10 }
    ensures { result ≡ with_option o k option }
{
    let given = o.given;
    if given[option] != 0 {
        return refuse(o, k);
    }
    if option < WITH_ARGUMENT {
        return take(o, k, option);
    }
    Options {
        stage: Stage::Argument(option),
        ..o
    }
}

// Takes word k of a kind where an option may be.
fn option_in(o: Options, k: usize, kind: Kind) -> Options
    requires { Listed kind }
    ensures { result ≡ option_in o k kind }
{
    match kind {
        Kind::Operand => operand_in(o, k),
        Kind::Unknown => refuse(o, k),
        Kind::Known(0) => Options {
            stage: Stage::Operands,
            ..o
        },
        Kind::Known(option) => known(o, k, option),
    }
}

// Takes word k.
fn step(o: Options, k: usize, word: &[u8]) -> Options
    ensures { result ≡ step_of o k word.now }
{
    match o.stage {
        Stage::Argument(option) => take(o, k, option),
        Stage::Ready => option_in(o, k, kind_of(word)),
        Stage::Operands => operand_in(o, k),
        Stage::Refused => o,
    }
}

// Returns the options of the words of a block, the first of which is word 1.
pub fn read_options(block: &[u8]) -> Options
    ensures { result ≡ options_of (words_of block.now) }
{
    let mut o = start();
    let mut at: usize = 0;
    let mut k: usize = 0;
    while at < block.len() {
        let w = front_words::word_at(block, at);
        let end = w.end;
        k += 1;
        o = step(o, k, &block[at..end]);
        at = w.next;
    }
    o
}
