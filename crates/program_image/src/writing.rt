// The bytes of an image's parts, written from an index on as far as the room goes; each function gives the index after
// them.
ghost use Rattle.std.specs.Prelude.{◌≡◌, true, ◌+◌, ◌*◌, ◌≤◌, ◌<◌, ◌^◌, length};
ghost use Rattle.edition.specs.Limits.{filter_text, constant_count, instruction_count};
ghost use Rattle.image_format.specs.Numbers.{coded};
ghost use Rattle.image_format.specs.Writing.{bytes, instruction_in};
ghost use Rattle.program_tables.specs.Texts.{value_in};
ghost use Rattle.program_tables.specs.Tables.{meant, InsideText, AllInside};
ghost use Rattle.program_image.specs.Written.{Writes, SmallNumber, AllSmall, entry_bytes, entries_bytes};
ghost use Rattle.program_image.specs.Written.{has_operand, instruction_of, section_bytes};

use program_tables::Entry;

// The kinds of constants.
const NUMBER: u64 = 0;

const TEXT: u64 = 1;

// Writes a text: length and bytes.
fn put_text(s: &[u8], e: Entry, escapes: bool, room: &mut [u8], k: usize) -> usize
    requires { InsideText s.now e × (length s.now ≤ filter_text) × (k < 2 ^ 32) }
    ensures { Writes room.old k (bytes coded (value_in s.now escapes e.value e.stop))
        result room.new }
{
    let n = program_tables::value_length(s, e.value, e.stop, escapes);
    let i = varint::put_number(room, k, n as u64);
    program_tables::put_value(s, e.value, e.stop, escapes, room, i)
}

// Writes an entry: a constant, kind 0 with a number or kind 1 with length and bytes; or an ERE, length and bytes.
fn put_entry(s: &[u8], e: Entry, constants: bool, room: &mut [u8], k: usize) -> usize
    requires { InsideText s.now e × (length s.now ≤ filter_text) × (k < 2 ^ 31)
        × (constants ≡ true → SmallNumber e) }
    ensures { Writes room.old k (entry_bytes constants (meant s.now constants e))
        result room.new }
{
    if !constants {
        return put_text(s, e, false, room, k);
    }
    if e.stop == 0 {
        let i = varint::put_number(room, k, NUMBER);
        return varint::put_number(room, i, e.value as u64);
    }
    let j = varint::put_number(room, k, TEXT);
    put_text(s, e, true, room, j)
}

// Writes the n entries of a table, constants or EREs, their count first.
pub fn put_entries(
    s: &[u8],
    table: &[u64],
    n: usize,
    constants: bool,
    room: &mut [u8],
    k: usize,
) -> usize
    requires { (2 * n ≤ length table.now) × AllInside s.now table.now n × (length s.now ≤ filter_text)
        × (n ≤ constant_count) × (k < 2 ^ 20) × (constants ≡ true → AllSmall table.now n) }
    ensures { Writes room.old k (entries_bytes s.now constants table.now n)
        result room.new }
{
    let mut at = varint::put_number(room, k, n as u64);
    for i in 0..n {
        at = put_entry(s, program_tables::entry_in(table, i), constants, room, at);
    }
    at
}

// Tells whether an instruction with this code names a number.
fn has_operand(op: u64) -> bool
    ensures { result ≡ has_operand op }
{
    match op {
        program_words::CONSTANT => true,
        program_words::GET => true,
        program_words::SET => true,
        program_words::MATCHES => true,
        program_words::MATCH => true,
        program_words::JUMP => true,
        program_words::JUMP_IF_FALSE => true,
        program_words::PRINT => true,
        _ => false,
    }
}

// Writes an instruction: code, depth before it, and the operand where one is named.
fn put_instruction(w: u64, room: &mut [u8], k: usize) -> usize
    requires { k < 2 ^ 32 }
    ensures { Writes room.old k (instruction_in coded (instruction_of w)) result room.new }
{
    let op = program_words::op_in(w);
    let i = varint::put_number(room, k, op);
    let j = varint::put_number(room, i, program_words::depth_in(w));
    if has_operand(op) {
        return varint::put_number(room, j, program_words::first_in(w));
    }
    j
}

// Writes the n instructions of a section, their count first.
pub fn put_section(section: &[u64], n: usize, room: &mut [u8], k: usize) -> usize
    requires { (n ≤ length section.now) × (n ≤ instruction_count) × (k < 2 ^ 20) }
    ensures { Writes room.old k (section_bytes section.now n) result room.new }
{
    let mut at = varint::put_number(room, k, n as u64);
    for i in 0..n {
        at = put_instruction(section[i], room, at);
    }
    at
}
