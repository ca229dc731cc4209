// What the options ask for.
ghost use Rattle.std.specs.Prelude.{◌≡◌};
ghost use Rattle.front_options.specs.Given.{given_count};
ghost use Rattle.front_actions.specs.Actions.{image_action, write_action, run_action, given_action, action_of};

use front_options::{Options, Stage};

// What is to be done; what `Usage` means is that the words ask for nothing that there is.
#[derive(Clone, Copy, PartialEq, Eq)]
pub enum Action {
    Usage,
    Help,
    Version,
    Check,
    Content,
    TranslateText,
    TranslateFile,
    RunText,
    RunFile,
    RunImage,
}

// The options by number: the rows of the table of words in `kind_of`, and the indices of `given`, so no enum.
pub const COUNTS: usize = 1;

pub const HELP: usize = 2;

pub const VERSION: usize = 3;

pub const BUDGET: usize = 4;

pub const FILTER: usize = 5;

pub const IMAGE: usize = 6;

pub const OUTPUT: usize = 7;

pub const CHECK: usize = 8;

pub const CONTENT: usize = 9;

// Counts the options that are given.
fn given_count(given: &[usize]) -> usize
    ensures { result ≡ given_count given.now }
{
    given.iter().filter(|k| **k != 0).count()
}

// Returns what an option for images asks: nothing else may be given.
fn image_action(count: usize, operand: usize, asked: Action) -> Action
    ensures { result ≡ image_action count operand asked }
{
    if count != 1 {
        return Action::Usage;
    }
    if operand != 0 {
        return Action::Usage;
    }
    asked
}

// Returns what -o asks: a filter file and no operand, or one operand.
fn write_action(count: usize, operand: usize, words: usize, filter: usize) -> Action
    ensures { result ≡ write_action count operand words filter }
{
    if filter != 0 {
        if count != 2 {
            return Action::Usage;
        }
        if operand != 0 {
            return Action::Usage;
        }
        return Action::TranslateFile;
    }
    if count != 1 {
        return Action::Usage;
    }
    if operand == 0 {
        return Action::Usage;
    }
    if operand != words {
        return Action::Usage;
    }
    Action::TranslateText
}

// Returns what is run: an image, a filter file, or the first operand.
fn run_action(operand: usize, filter: usize, image: usize) -> Action
    ensures { result ≡ run_action operand filter image }
{
    if image != 0 {
        if filter != 0 {
            return Action::Usage;
        }
        return Action::RunImage;
    }
    if filter != 0 {
        return Action::RunFile;
    }
    if operand == 0 {
        return Action::Usage;
    }
    Action::RunText
}

// Returns what options ask for that are complete.
fn given_action(o: Options, words: usize) -> Action
    ensures { result ≡ given_action o words }
{
    let operand = o.operand;
    let given = o.given;
    if given[HELP] != 0 {
        return Action::Help;
    }
    if given[VERSION] != 0 {
        return Action::Version;
    }
    let count = given_count(&given);
    if given[CHECK] != 0 {
        return image_action(count, operand, Action::Check);
    }
    if given[CONTENT] != 0 {
        return image_action(count, operand, Action::Content);
    }
    if given[OUTPUT] != 0 {
        return write_action(count, operand, words, given[FILTER]);
    }
    run_action(operand, given[FILTER], given[IMAGE])
}

// Returns what options ask for that were read from this number of words.
pub fn asked_action(o: Options, words: usize) -> Action
    ensures { result ≡ action_of o words }
{
    match o.stage {
        Stage::Argument(_) | Stage::Refused => Action::Usage,
        Stage::Ready | Stage::Operands => given_action(o, words),
    }
}
