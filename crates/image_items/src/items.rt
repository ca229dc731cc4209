// What is in an image from a place on: a text, a constant, an instruction.
ghost use Rattle.std.specs.Prelude.{◌≤◌, length};
ghost use Rattle.image_format.specs.Codes.{code_of};
ghost use Rattle.opcodes.specs.Rows.{operands_in};
ghost use Rattle.image_items.specs.Stands.{TextAt, ConstantAt, OperandAt, NumbersAt, InstructionAt};

// The bytes of a text, from `start` to `end`.
#[derive(Clone, Copy)]
pub struct Text {
    pub start: usize,
    pub end: usize,
}

// A constant: its number, or its bytes.
#[derive(Clone, Copy)]
pub enum Constant {
    Number(u64),
    Text(Text),
}

// A constant, and where it ends.
#[derive(Drop)]
pub struct Found {
    pub constant: Constant,
    pub end: usize,
}

// An instruction, and where it ends. A number that the code doesn't name is 0.
#[derive(Drop)]
pub struct Fetched {
    pub code: u64,
    pub depth: u64,
    pub first: u64,
    pub second: u64,
    pub end: usize,
}

// Finds the bytes of the text whose length is at a place.
pub fn text_at(image: &[u8], at: usize) -> Option<Text>
    requires { at ≤ length image.now }
    ensures { TextAt image.now at result }
{
    let Some((n, start)) = varint::take_number(image, at) else {
        return None;
    };
    let left = image.len() - start;
    if (left as u64) < n {
        return None;
    }
    Some(Text {
        start,
        end: start + n as usize,
    })
}

// Reads the constant whose kind is at a place.
pub fn constant_at(image: &[u8], at: usize) -> Option<Found>
    requires { at ≤ length image.now }
    ensures { ConstantAt image.now at result }
{
    let Some((kind, behind)) = varint::take_number(image, at) else {
        return None;
    };
    match kind {
        0 => {
            let Some((n, end)) = varint::take_number(image, behind) else {
                return None;
            };
            Some(Found {
                constant: Constant::Number(n),
                end,
            })
        }
        1 => {
            let t = text_at(image, behind)?;
            Some(Found {
                end: t.end,
                constant: Constant::Text(t),
            })
        }
        _ => None,
    }
}

// Reads the number at a place, if one is named there; else it is 0, and has no byte. Returns it and where it ends.
fn operand_at(image: &[u8], named: bool, at: usize) -> Option<(u64, usize)>
    requires { at ≤ length image.now }
    ensures { OperandAt named image.now at result }
{
    if !named {
        return Some((0, at));
    }
    varint::take_number(image, at)
}

// Reads the numbers of an instruction with a code and a depth, which are at a place.
fn operands_at(image: &[u8], edition: u64, code: u64, depth: u64, at: usize) -> Option<Fetched>
    requires { at ≤ length image.now }
    ensures { NumbersAt (operands_in (code_of edition code)) code depth image.now at result }
{
    let n = opcodes::operands(edition, code);
    let (first, behind) = operand_at(image, 0 < n, at)?;
    let (second, end) = operand_at(image, 1 < n, behind)?;
    Some(Fetched {
        code,
        depth,
        first,
        second,
        end,
    })
}

// Reads the instruction whose code is at a place.
pub fn instruction_at(image: &[u8], edition: u64, at: usize) -> Option<Fetched>
    requires { at ≤ length image.now }
    ensures { InstructionAt edition image.now at result }
{
    let Some((code, behind)) = varint::take_number(image, at) else {
        return None;
    };
    if !opcodes::known_code(edition, code) {
        return None;
    }
    let Some((depth, last)) = varint::take_number(image, behind) else {
        return None;
    };
    operands_at(image, edition, code, depth, last)
}
