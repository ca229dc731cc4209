// Where a walk over an image is, and where it goes by what comes there, whether that is read from bytes or from words.
// A stage is a number and the functions are small, so that they become part of a pass and its state stays in
// registers: through memory, a step takes five times as long.
ghost use Rattle.std.specs.Prelude.{◌≡◌};
ghost use Rattle.image_stages.specs.Stages.{start, opening, with_units, edition_told, kind_told, code_told};
ghost use Rattle.image_stages.specs.Stages.{told, advance, after};

// The stages: what comes. The edition.
const EDITION: u64 = 0;

// A list's count.
const COUNT: u64 = 1;

// A constant's kind.
const KIND: u64 = 2;

// A text's length.
const LENGTH: u64 = 3;

// A text byte.
pub const BYTE: u64 = 4;

// An instruction's code.
const CODE: u64 = 5;

// Any other number: the count of user variables, a constant's number, a depth, an operand.
const PLAIN: u64 = 6;

// Nothing: the image is whole.
pub const END: u64 = 7;

// Where a walk is: the stage, the image's edition, and how many lists, items of the list and units of the item come
// after the present ones. A unit is a number or a text byte.
#[derive(Clone, Copy)]
pub struct State {
    pub stage: u64,
    pub edition: u64,
    pub lists: u64,
    pub items: u64,
    pub units: u64,
}

// The lists of an image: constants, EREs and three sections.
const LISTS: u64 = 5;

const AFTER_CONSTANTS: u64 = 4;

const AFTER_ERES: u64 = 3;

// Returns the state at an image's first number. Like an item, the edition has a unit after it: the count of user
// variables.
pub fn start() -> State
    ensures { result ≡ start }
{
    State {
        stage: EDITION,
        edition: 0,
        lists: LISTS,
        items: 0,
        units: 1,
    }
}

// Returns the first stage of an item, by how many lists come after its own.
fn opening(lists: u64) -> u64
    ensures { result ≡ opening lists }
{
    match lists {
        AFTER_CONSTANTS => KIND,
        AFTER_ERES => LENGTH,
        _ => CODE,
    }
}

// Returns the state with `units` units of a stage left of its item.
fn with_units(s: State, stage: u64, units: u64) -> State
    ensures { result ≡ with_units s stage units }
{
    State { stage, units, ..s }
}

// Takes the edition, if it is known.
fn edition_told(s: State, v: u64) -> Option<State>
    ensures { result ≡ edition_told s v }
{
    if !opcodes::known_edition(v) {
        return None;
    }
    Some(State {
        stage: PLAIN,
        edition: v,
        ..s
    })
}

// Takes a constant's kind, if there is such a kind: a number or a text follows.
fn kind_told(s: State, v: u64) -> Option<State>
    ensures { result ≡ kind_told s v }
{
    match v {
        0 => Some(with_units(s, PLAIN, 1)),
        1 => Some(with_units(s, LENGTH, 1)),
        _ => None,
    }
}

// Takes an instruction's code, if there is such a code: its depth and the numbers that it names follow.
fn code_told(s: State, v: u64) -> Option<State>
    ensures { result ≡ code_told s v }
{
    if !opcodes::known_code(s.edition, v) {
        return None;
    }
    Some(with_units(s, PLAIN, 1 + opcodes::operands(s.edition, v)))
}

// Takes what v says: how many items the list has, or how many units of which stage the item has left.
fn told(s: State, v: u64) -> Option<State>
    ensures { result ≡ told s v }
{
    match s.stage {
        EDITION => edition_told(s, v),
        COUNT => Some(State {
            items: v,
            units: 0,
            ..s
        }),
        KIND => kind_told(s, v),
        LENGTH => Some(with_units(s, BYTE, v)),
        CODE => code_told(s, v),
        _ => Some(s),
    }
}

// Goes on to the next unit of the item, else to the next item of the list, else to the next list.
fn advance(s: State) -> State
    ensures { result ≡ advance s }
{
    if s.units != 0 {
        return with_units(s, s.stage, s.units - 1);
    }
    if s.items != 0 {
        return State {
            stage: opening(s.lists),
            items: s.items - 1,
            units: 0,
            ..s
        };
    }
    if s.lists != 0 {
        return State {
            stage: COUNT,
            lists: s.lists - 1,
            items: 0,
            units: 0,
            ..s
        };
    }
    State {
        stage: END,
        edition: s.edition,
        lists: 0,
        items: 0,
        units: 0,
    }
}

// Returns the state after v came, or that v is an unknown edition, kind or code.
pub fn after(s: State, v: u64) -> Option<State>
    ensures { result ≡ after s v }
{
    Some(advance(told(s, v)?))
}
