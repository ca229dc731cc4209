// How many cases of a group passed.
ghost use Rattle.std.specs.Prelude.{◌≡◌};
ghost use Rattle.vectors_frames.specs.Tally.{begun, after, verdict_of};

// More frames than any file has. A proved loop has to end, and nothing says that a file does.
const FRAMES: u64 = 1000000000;

// What is known of a frame: its case passed or failed, the file ends inside it, or there is none, since the file is at
// its end.
#[derive(Clone, Copy)]
pub enum Verdict {
    Passed,
    Failed,
    Cut,
    End,
}

// The cases so far, and how many frames more may be looked for: 0 once the file is at its end.
#[derive(Clone, Copy)]
pub struct Tally {
    pub passed: u64,
    pub total: u64,
    pub left: u64,
}

// Returns the tally of no case.
pub fn start() -> Tally
    ensures { result ≡ begun }
{
    Tally {
        passed: 0,
        total: 0,
        left: FRAMES,
    }
}

// Returns the verdict on a case.
pub fn judged(passed: bool) -> Verdict
    ensures { result ≡ verdict_of passed }
{
    if passed {
        Verdict::Passed
    } else {
        Verdict::Failed
    }
}

// Counts one look more. A frame that is cut counts as a case that did not pass.
pub fn counted(t: Tally, v: Verdict) -> Tally
    ensures { result ≡ after t v }
{
    let total = t.total.saturating_add(1);
    let left = t.left.saturating_sub(1);
    match v {
        Verdict::Passed => Tally {
            passed: t.passed.saturating_add(1),
            total,
            left,
        },
        Verdict::Failed => Tally { total, left, ..t },
        Verdict::Cut => Tally {
            total,
            left: 0,
            ..t
        },
        Verdict::End => Tally { left: 0, ..t },
    }
}
