// The numbers of a search's answer.
ghost use Rattle.std.specs.Prelude.{◌≡◌};
ghost use Rattle.ere.specs.Answer.{matching, matching_of};
ghost use Rattle.ere.specs.Answer.{without as withoutMatch};
ghost use Rattle.capi_numbers.specs.Match.{Within};

use edition::Outcome;
use ere::Refusal;

// An outcome, and the two numbers that are stored. The C interface stores all three, whatever the outcome is.
#[derive(Drop)]
pub struct MatchAnswer {
    pub outcome: u64,
    pub rstart: u64,
    pub rlength: i64,
}

// Returns the numbers where there is no match.
fn without(outcome: u64) -> MatchAnswer
    ensures { matching result.outcome result.rstart result.rlength ≡ withoutMatch outcome }
{
    MatchAnswer {
        outcome,
        rstart: 0,
        rlength: -1,
    }
}

// Returns the numbers of a search's answer.
pub fn match_numbers(m: Result<Option<(usize, usize)>, Refusal>) -> MatchAnswer
    requires { Within (matching_of m) }
    ensures { matching result.outcome result.rstart result.rlength ≡ matching_of m }
{
    match m {
        Ok(Some((start, length))) => {
            let rstart = start as u64 + 1;
            let rlength = length as i64;
            MatchAnswer {
                outcome: Outcome::DONE,
                rstart,
                rlength,
            }
        }
        Ok(None) => without(Outcome::DONE),
        Err(Refusal::BadEre) => without(Outcome::BAD_ERE),
        Err(Refusal::LongText) => without(Outcome::TEXT_TOO_LONG),
    }
}
