// Whole messages: a refusal with its place, a run's outcome with its counts, an image's outcome.
ghost use Rattle.std.specs.Prelude.{◌+◌, ◌≤◌, ◌<◌, ◌^◌, length};
ghost use Rattle.front_lines.specs.Puts.{Puts};
ghost use Rattle.front_lines.specs.Messages.{outcome_text, place_text, counts_text, refusal_text, summary_text, image_text};

// Writes an outcome's meaning and number from byte k on; returns the index after them.
fn put_outcome(room: &mut [u8], k: usize, outcome: u64) -> usize
    requires { k < 2 ^ 48 }
    ensures { Puts room.old k (outcome_text outcome) result room.new × (result ≤ k + 1000) }
{
    let meanings: &[u8] =
        b"done\0filter text too long\0NUL byte in the filter text\0bad token\0misplaced token\0\
        bad ERE or its sizes\0other size passed\0image or content room too small\0image bytes malformed\0\
        image fails the check\0budget spent\0number out of range\0number not whole\0divisor zero\0\
        text value too long\0record too long\0field number not 0 to 128, or over 128 fields\0\
        output room too small\0FS empty or a bad ERE\0working room too small\0";
    let w = front_words::find_word(meanings, outcome as usize);
    let start = w.start;
    let end = w.end;
    let meaning = front_lines::put_text(room, k, &meanings[start..end]);
    let open = front_lines::put_text(room, meaning, b" (outcome ");
    let number = front_lines::put_decimal(room, open, outcome);
    front_lines::put_text(room, number, b")")
}

// Writes a place's name, line and column from byte k on; returns the index after them.
fn put_place(room: &mut [u8], k: usize, name: &[u8], line: usize, column: usize) -> usize
    requires { (k < 2 ^ 32) × (length name.now < 2 ^ 32) }
    ensures { Puts room.old k (place_text name.now line column) result room.new
        × (result ≤ k + (length name.now + 100)) }
{
    let a = front_lines::put_text(room, k, b"flowawk: ");
    let b = front_lines::put_text(room, a, name);
    let c = front_lines::put_text(room, b, b":");
    let d = front_lines::put_decimal(room, c, line as u64);
    let e = front_lines::put_text(room, d, b":");
    let f = front_lines::put_decimal(room, e, column as u64);
    front_lines::put_text(room, f, b": ")
}

// Writes a run's counts from byte k on; returns the index after them.
fn put_counts(room: &mut [u8], k: usize, records: u64, steps: u64, bytes: u64) -> usize
    requires { k < 2 ^ 48 }
    ensures { Puts room.old k (counts_text records steps bytes) result room.new }
{
    let a = front_lines::put_text(room, k, b"; ");
    let b = front_lines::put_decimal(room, a, records);
    let c = front_lines::put_text(room, b, b" records begun, ");
    let d = front_lines::put_decimal(room, c, steps);
    let e = front_lines::put_text(room, d, b" steps, ");
    let f = front_lines::put_decimal(room, e, bytes);
    front_lines::put_text(room, f, b" bytes written\n")
}

// Writes why a filter was refused: its name, the place, the outcome, the line and a caret. Answers the message's
// length.
pub fn put_refusal(room: &mut [u8], name: &[u8], text: &[u8], place: usize, outcome: u64) -> usize
    requires { (length name.now < 2 ^ 16) × (place ≤ length text.now) × (length text.now < 2 ^ 32) }
    ensures { Puts room.old 0 (refusal_text name.now text.now place outcome) result
        room.new }
{
    let line = front_places::line_at(text, place);
    let column = front_places::column_at(text, place);
    let a = put_place(room, 0, name, line, column);
    let b = put_outcome(room, a, outcome);
    let c = front_lines::put_text(room, b, b"\n");
    front_lines::put_caret(room, c, text, place)
}

// Writes a run's outcome and counts. Answers the message's length.
pub fn put_summary(room: &mut [u8], outcome: u64, records: u64, steps: u64, bytes: u64) -> usize
    ensures { Puts room.old 0 (summary_text outcome records steps bytes) result room.new }
{
    let a = front_lines::put_text(room, 0, b"flowawk: ");
    let b = put_outcome(room, a, outcome);
    put_counts(room, b, records, steps, bytes)
}

// Writes an image's outcome. Answers the message's length.
pub fn put_image_refusal(room: &mut [u8], name: &[u8], outcome: u64) -> usize
    requires { length name.now < 2 ^ 16 }
    ensures { Puts room.old 0 (image_text name.now outcome) result room.new }
{
    let a = front_lines::put_text(room, 0, b"flowawk: ");
    let b = front_lines::put_text(room, a, name);
    let c = front_lines::put_text(room, b, b": ");
    let d = put_outcome(room, c, outcome);
    front_lines::put_text(room, d, b"\n")
}
