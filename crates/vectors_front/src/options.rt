// The words of a command line.
//
// Payload: the stage, the action's number, the number of the first operand or of the refused word, 2 bytes, the numbers
// of the words of the ten options, 2 bytes each, how many words there are, 2 bytes, and the words, each with a NUL
// after it.
use front_actions::Action;
use front_options::{Options, Stage};

// Returns the payload's number of an action.
fn number_of(a: Action) -> u8 {
    match a {
        Action::Usage => 0,
        Action::Help => 1,
        Action::Version => 2,
        Action::Check => 3,
        Action::Content => 4,
        Action::TranslateText => 5,
        Action::TranslateFile => 6,
        Action::RunText => 7,
        Action::RunFile => 8,
        Action::RunImage => 9,
    }
}

// Returns the payload's number of a stage: that of the option that waits for its argument, or one after those.
fn stage_of(s: Stage) -> u64 {
    match s {
        Stage::Argument(option) => option as u64,
        Stage::Ready => 10,
        Stage::Operands => 11,
        Stage::Refused => 12,
    }
}

// Tells whether the words of the options are as the payload says.
fn given(p: &[u8], words: &[usize]) -> bool {
    for (i, word) in words.iter().enumerate() {
        if 64 < i {
            return false;
        }
        if vectors_frames::short(p, 4 + 2 * i) != *word {
            return false;
        }
    }
    true
}

// Tells whether options and action are as the payload says.
fn answers(p: &[u8], o: Options) -> bool {
    let words = o.given;
    if vectors_frames::wide(vectors_frames::byte(p, 0)) != stage_of(o.stage) {
        return false;
    }
    if vectors_frames::short(p, 2) != o.operand {
        return false;
    }
    if vectors_frames::byte(p, 1)
        != number_of(front_actions::asked_action(o, vectors_frames::short(p, 24)))
    {
        return false;
    }
    given(p, &words)
}

// Tells whether the case in a payload passes.
pub fn passes(p: &[u8]) -> bool {
    if p.len() < 26 {
        return false;
    }
    answers(p, front_options::read_options(&p[26..]))
}
