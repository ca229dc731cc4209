// Exit statuses.
ghost use Rattle.std.specs.Prelude.{◌≡◌, ◌≤◌};
ghost use Rattle.front_choices.specs.Statuses.{status_of};

use edition::Outcome;

// The statuses besides the outcomes, of sysexits.h: bad usage, no input, input or output that failed.
pub const USAGE: u64 = 64;

pub const NO_INPUT: u64 = 66;

pub const IO_FAILED: u64 = 74;

// Returns the exit status of an outcome: its number.
pub fn status_of(outcome: u64) -> u64
    ensures { (result ≡ status_of outcome) × (result ≤ 74) }
{
    if outcome <= Outcome::WORKING_ROOM_TOO_SMALL {
        return outcome;
    }
    IO_FAILED
}
