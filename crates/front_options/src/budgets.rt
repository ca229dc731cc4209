// The number of a budget.
ghost use Rattle.lists.specs.Answers.{option_of};
ghost use Rattle.std.specs.Prelude.{◌≡◌};
ghost use Rattle.front_options.specs.Budgets.{with_digit, budget_of};

// Returns a number with one digit more, if the byte is a digit and the number fits 64 bits.
fn with_digit(value: u64, b: u8) -> Option<u64>
    ensures { option_of result ≡ with_digit value b }
{
    if !b.is_ascii_digit() {
        return None;
    }
    let d = (b - b'0') as u64;
    value.checked_mul(10)?.checked_add(d)
}

// Returns the number that a word spells: digits alone, at least one, up to 2^64 - 1.
pub fn read_budget(word: &[u8]) -> Option<u64>
    ensures { option_of result ≡ budget_of word.now }
{
    if word.is_empty() {
        return None;
    }
    let mut value: u64 = 0;
    for b in word {
        value = with_digit(value, *b)?;
    }
    Some(value)
}
