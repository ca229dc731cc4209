// Words by number, the budget, and the first file.
ghost use Rattle.lists.specs.Answers.{option_of};
ghost use Rattle.std.specs.Prelude.{◌≡◌};
ghost use Rattle.front_words.specs.Words.{words_of};
ghost use Rattle.front_choices.specs.Choices.{word_number, budget_for, first_file, after as choices_after};

use front_actions::Action;

// The steps of a run where -b is not given.
const STEPS: u64 = 1000000000;

// Returns word k of a block, counted from 1: the empty word for 0, and where there are fewer words.
pub fn word(block: &[u8], k: usize) -> &[u8]
    ensures { result.now ≡ word_number (words_of block.now) k }
{
    if k == 0 {
        return &block[0..0];
    }
    let w = front_words::find_word(block, k - 1);
    let start = w.start;
    let end = w.end;
    &block[start..end]
}

// Returns the budget that word k spells, 10^9 steps for 0, and `None` where the word spells none.
pub fn budget_for(block: &[u8], k: usize) -> Option<u64>
    ensures { option_of result ≡ budget_for (words_of block.now) k }
{
    if k == 0 {
        return Some(STEPS);
    }
    front_options::read_budget(word(block, k))
}

// Returns the number after k, and 0, which numbers no word, where there is none.
fn after(k: usize) -> usize
    ensures { result ≡ choices_after k }
{
    k.checked_add(1).unwrap_or(0)
}

// Returns the number of the word that names the first file: the one after the filter if the first operand is a filter,
// and the first operand otherwise.
pub fn first_file(a: Action, operand: usize) -> usize
    ensures { result ≡ first_file a operand }
{
    match a {
        Action::RunText => after(operand),
        _ => operand,
    }
}
