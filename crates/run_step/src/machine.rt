// What a run carries by value.
ghost use Rattle.std.specs.Prelude.{◌≡◌, ◌<◌};
ghost use Rattle.run_step.specs.Machine.{kind_of, stopped, gone_to, advanced, advanced_unless, with_line};
ghost use Rattle.run_step.specs.Machine.{with_separator};

use run_room::Line;
use separators::Kind;

// The sections.
pub const BEGIN: usize = 0;

pub const MAIN: usize = 1;

pub const FINISH: usize = 2;

// The place between records, where else an instruction's number is.
pub const BETWEEN: usize = 1024;

// A run that goes on in its section, one that leaves BEGIN for the records, and one that leaves a section for END. Any
// other
// status is the outcome of a run that is over.
pub const GOES: u64 = 100;

pub const TO_RECORDS: u64 = 101;

pub const TO_END: u64 = 102;

// What FS separates by, as a word, since an enum in a struct goes through memory: a byte is its own number; blanks, an
// ERE and nothing come above.
pub const BLANKS: usize = 256;

const ERE: usize = 257;

const NOTHING: usize = 258;

// Returns the kind of separator that a word means; one above those three is nothing.
pub fn kind_of(word: usize) -> Kind
    ensures { result ≡ kind_of word }
{
    if word < BLANKS {
        return Kind::Byte(word as u8);
    }
    match word {
        BLANKS => Kind::Blank,
        ERE => Kind::Pattern,
        _ => Kind::Refused,
    }
}

// Codes a kind of separator as a word.
pub fn word_of(kind: Kind) -> usize
    ensures { kind_of result ≡ kind }
{
    match kind {
        Kind::Blank => BLANKS,
        Kind::Byte(b) => b as usize,
        Kind::Pattern => ERE,
        Kind::Refused => NOTHING,
    }
}

// Where a run is, but for the rooms: whether it goes on; the instruction; how many operands there are; steps, records
// begun,
// the place in the lines, bytes written; the ERE of the shared table; the word of what FS separates by; and the record.
#[derive(Clone, Copy)]
pub struct Machine {
    pub status: u64,
    pub at: usize,
    pub depth: usize,
    pub steps: u64,
    pub records: u64,
    pub input: usize,
    pub written: usize,
    pub last: usize,
    pub separator: usize,
    pub line: Line,
}

impl Machine {
    // Leaves the section.
    pub fn stop(self, status: u64) -> Machine
        ensures { result ≡ stopped «self» status }
    {
        let mut m = self;
        m.status = status;
        m
    }

    // Goes to instruction t.
    pub fn go_to(self, t: usize) -> Machine
        ensures { result ≡ gone_to «self» t }
    {
        let mut m = self;
        m.at = t;
        m
    }

    // Goes on to the next instruction, with this number of operands.
    pub fn on(self, depth: usize) -> Machine
        requires { «self».at < 1024 }
        ensures { result ≡ advanced «self» depth }
    {
        let mut m = self;
        m.at = self.at + 1;
        m.depth = depth;
        m
    }

    // Goes on to the next instruction with this number of operands, or stops if the outcome isn't 0.
    pub fn after(self, outcome: u64, depth: usize) -> Machine
        requires { «self».at < 1024 }
        ensures { result ≡ advanced_unless «self» outcome depth }
    {
        if outcome != 0 {
            return self.stop(outcome);
        }
        self.on(depth)
    }

    // Returns the machine with another record.
    pub fn with_line(self, line: Line) -> Machine
        ensures { result ≡ with_line «self» line }
    {
        let mut m = self;
        m.line = line;
        m
    }

    // Returns the machine with another record and what FS separates by.
    pub fn with_separator(self, line: Line, separator: usize) -> Machine
        ensures { result ≡ with_separator (with_line «self» line) separator }
    {
        let mut m = self;
        m.line = line;
        m.separator = separator;
        m
    }
}
