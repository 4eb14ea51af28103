// The specification as definitions, with the theorems about them, and the step rules as code. The types are
// declared here, below every definition, so that the definitions name the very types that the code works on.
#![tactic(auto)]

pub mod rules; // rules.rt: the step rules, as methods of the values
pub mod values; // values.rt: kinds, cells, operations, answers and turns

// The limits: what a run takes, and what a reader of run files is lent room for.
pub const MOST_CELLS: usize = 4096;

pub const MOST_OPERATIONS: usize = 64;

pub const MOST_ENTRIES: usize = 16384;

// A run file has no more bytes.
pub const MOST_BYTES: usize = 65535;

// No text of a run that those limits allow is longer, nor is that of a refusal.
pub const MOST_TEXT: usize = 98304;

// The same of the wide width, whose totals have longer texts.
// Two numbers that callers lend room by, with no code between them.
pub const MOST_WIDE_TEXT: usize = 148228;

// A total: an amount, and whether it is saturated (the specification's word: pinned), so that it stands for at least
// that much.
#[derive(Clone, Copy, PartialEq)]
pub struct Total {
    pub amount: u32,
    pub saturated: bool,
}

// Why a call is turned away: the number of its row in the table of refusals, and its place. An accepted call
// has number 0 and place 0.
// Numbers, since the definitions name it; no code returns one.
#[derive(Clone, Copy)]
pub struct Refusal {
    pub number: u32,
    pub place: usize,
}

// What a run returns beside the slices that it writes: whether it was turned away, how many
// operations finished, how many swaps were lost and how many entries were idle.
// Numbers, since it is what C is given.
#[repr(C)]
#[derive(Clone, Copy)]
pub struct Outcome {
    pub number: u32,
    pub place: usize,
    pub done: usize,
    pub lost: usize,
    pub idle: usize,
}

// A mark that opens a record of a run file: TB, CL, OP, SC, or none of them.
// None stays a variant: the table of marks in the definitions has a row for it.
#[derive(Clone, Copy)]
pub enum Mark {
    Table,
    Cell,
    Operation,
    Schedule,
    Unknown,
}

// What a reader of a run file carries from record to record: the offset of the record that follows,
// the part of the file that the last one belongs to (0 before the first), the number of cells, the
// lowest cell number that the next CL record may name, and how many operations and entries came so far.
// All of one width, so that there is no padding, which would be carried from record to record as well.
// The part stays a number, since the definitions compare parts.
#[derive(Clone, Copy)]
pub struct Position {
    pub at: usize,
    pub part: usize,
    pub size: usize,
    pub lowest: usize,
    pub operations: usize,
    pub entries: usize,
}

// What a scan of a run file makes of the record at a position: why it is turned away, 0 if it is not,
// and the position past it; one that is turned away is not passed.
// Numbers, since the definitions name it; no code returns one.
#[derive(Clone, Copy)]
pub struct Judged {
    pub number: u32,
    pub next: Position,
}

// What the reader of a run file returns beside the slices that it fills: whether the file was turned
// away, and how many cells, operations and entries were written.
// Numbers, since it is what C is given.
#[repr(C)]
#[derive(Clone, Copy)]
pub struct Loaded {
    pub number: u32,
    pub place: usize,
    pub cells: usize,
    pub operations: usize,
    pub entries: usize,
}

// What a call that writes bytes returns: whether it was turned away, and how many it wrote.
// Numbers, since it is what C is given.
#[repr(C)]
#[derive(Clone, Copy)]
pub struct Written {
    pub number: u32,
    pub place: usize,
    pub length: usize,
}
