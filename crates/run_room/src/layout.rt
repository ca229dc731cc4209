// What is where in the working room. specs/Layout.antt has the same.
use edition::Edition;

// A block: copies inside the room go in whole ones.
pub const BLOCK: usize = 16;

// A slot: a head of two words (kind and text length; number), a text, and a block that copies may write to.
pub const HEAD: usize = 16;

pub const SLOT: usize = HEAD + Edition::TEXT + BLOCK;

// Slots of operands, then of variables, of which the rules' own have nine.
pub const OPERANDS: usize = Edition::DEPTH;

pub const SPECIALS: usize = 9;

pub const SLOTS: usize = OPERANDS + SPECIALS + Edition::USERS;

// Two more slots, of which one is the record and the other is free.
pub const RECORDS: usize = SLOTS * SLOT;

// An entry for each field: two words.
pub const ENTRIES: usize = RECORDS + 2 * SLOT;

pub const ENTRY: usize = 16;

// The end of what is used.
pub const BASE_END: usize = ENTRIES + Edition::FIELDS * ENTRY;

// Kinds of values. A kind above these is that of field text too.
pub const UNSET: u8 = 0;

pub const NUMBER: u8 = 1;

pub const TEXT: u8 = 2;

pub const FIELD: u8 = 3;
