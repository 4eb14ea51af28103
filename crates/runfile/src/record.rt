// One record of a run file: what it is, and why it is turned away. Its refusals stand in the order that the
// reader has.
ghost use Rattle.std.specs.Prelude.{◌≡◌, not, ◌^◌, ◌||◌, ◌+◌, ◌*◌, ◌<◌, eqb, ltb, leb, Ok};
ghost use Rattle.semantics.specs.RunFile.{layout_of, run_file, may_follow, mark_at, has_mark, judged};
ghost use Rattle.semantics.specs.Words.{size_allowed};
ghost use Rattle.semantics.specs.Records.{fault_at};
ghost use Rattle.runfile.specs.Faults.{number_of, place_of};
ghost use Rattle.runfile.specs.Records.{Reads, ReadsAt, as_judged, Is, Rest, Stands, Tells, Whole, Passable, after};

use hash::size_allowed;
use semantics::{MOST_ENTRIES, MOST_OPERATIONS, Mark, Position, Total};
use word::Word;
use word::bytes::{byte_at, pair_at};

// Why a file is turned away.
// Number and place are its own, and of no trait: no function is generic over the enums of reasons.
#[derive(Clone, Copy)]
pub enum Fault {
    TooMany(usize),
    TooShort,
    Mark(usize),
    Cut(usize),
    Body(usize),
    TooLong,
}

impl Fault {
    // Its row in the table of refusals.
    pub fn number(self) -> u32
        ensures { result ≡ number_of self }
    {
        match self {
            Fault::TooMany(_) => 2,
            Fault::TooShort => 3,
            Fault::Mark(_) => 9,
            Fault::Cut(_) => 10,
            Fault::Body(_) => 11,
            Fault::TooLong => 12,
        }
    }

    // The offset of the record.
    pub fn place(self) -> usize
        ensures { result ≡ place_of self }
    {
        match self {
            Fault::TooShort | Fault::TooLong => 0,
            Fault::TooMany(at) | Fault::Mark(at) | Fault::Cut(at) | Fault::Body(at) => at,
        }
    }
}

// A record: 2^k cells, a cell, an operation, or the entries. (The kind is a number: a file may hold any there, and it is
// the run that turns away what is no kind.)
#[derive(Clone, Copy)]
pub enum Record<'a> {
    Table(u8),
    Cell { at: u16, key: u16, total: Total },
    Operation { kind: u8, key: u16, amount: Total },
    Schedule(&'a [u8]),
}

// Whether a table may have 2^k cells.
#[tactic(auto, using(crate::proofs::Bytes::too_large))]
fn is_exponent(k: u8) -> bool
    ensures { result ≡ size_allowed (2 ^ k) }
{
    k < 64 && size_allowed(1 << (k as usize))
}

// The order of the parts: one table first, then cells, operations, entries. (Parts are numbers, since the definition
// may_follow compares them.)
#[tactic(auto, unfolding(semantics::specs::RunFile::may_follow))]
fn may_follow(before: usize, part: usize) -> bool
    ensures { result ≡ may_follow before part }
{
    if before == 0 {
        part == 1
    } else {
        part > 1 && before <= part
    }
}

// Bytes and position are two, here and below: one is read, and the other judged by.
#[tactic(auto, using(crate::proofs::Order::fault_told))]
#[inline(always)]
fn table<W: Word>(rest: &[u8], position: Position) -> Result<Record<'_>, Fault>
    ensures { Reads W.flagged rest.now position Mark.Table result }
{
    if !may_follow(position.part, 1) {
        return Err(Fault::Mark(position.at));
    }
    if rest.len() < 3 {
        return Err(Fault::Cut(position.at));
    }
    let k = byte_at(rest, 2);
    if !is_exponent(k) {
        return Err(Fault::Body(position.at));
    }
    Ok(Record::Table(k))
}

#[tactic(auto, using(crate::proofs::Order::fault_told, crate::proofs::Totals::totals))]
#[inline(always)]
fn cell<W: Word>(rest: &[u8], position: Position) -> Result<Record<'_>, Fault>
    ensures { Reads W.flagged rest.now position Mark.Cell result }
{
    if !may_follow(position.part, 2) {
        return Err(Fault::Mark(position.at));
    }
    if rest.len() < W::total_bytes() + 6 {
        return Err(Fault::Cut(position.at));
    }
    let Some(total) = W::read_total(&rest[6..]) else {
        return Err(Fault::Body(position.at));
    };
    let at = pair_at(rest, 2);
    let key = pair_at(rest, 4);
    if (at as usize) < position.lowest || position.size <= at as usize || key == 0 {
        return Err(Fault::Body(position.at));
    }
    Ok(Record::Cell { at, key, total })
}

#[tactic(auto, using(crate::proofs::Order::fault_told, crate::proofs::Totals::totals))]
#[inline(always)]
fn operation<W: Word>(rest: &[u8], position: Position) -> Result<Record<'_>, Fault>
    ensures { Reads W.flagged rest.now position Mark.Operation result }
{
    if !may_follow(position.part, 3) {
        return Err(Fault::Mark(position.at));
    }
    if rest.len() < W::total_bytes() + 5 {
        return Err(Fault::Cut(position.at));
    }
    let Some(amount) = W::read_total(&rest[5..]) else {
        return Err(Fault::Body(position.at));
    };
    if position.operations >= MOST_OPERATIONS {
        return Err(Fault::TooMany(position.at));
    }
    let kind = byte_at(rest, 2);
    let key = pair_at(rest, 3);
    Ok(Record::Operation { kind, key, amount })
}

#[tactic(auto, using(crate::proofs::Order::fault_told))]
#[inline(always)]
fn schedule<W: Word>(rest: &[u8], position: Position) -> Result<Record<'_>, Fault>
    ensures { Reads W.flagged rest.now position Mark.Schedule result }
{
    if !may_follow(position.part, 4) {
        return Err(Fault::Mark(position.at));
    }
    let count = byte_at(rest, 2);
    if rest.len() < 3 + count as usize {
        return Err(Fault::Cut(position.at));
    }
    if count == 0 {
        return Err(Fault::Body(position.at));
    }
    if position.entries > MOST_ENTRIES || MOST_ENTRIES - position.entries < count as usize {
        return Err(Fault::TooMany(position.at));
    }
    Ok(Record::Schedule(&rest[3..3 + count as usize]))
}

// Two letters as one number, so that they are compared at once.
fn letters(first: u8, second: u8) -> u16
    ensures { (result ≡ second * 256 + first) × (first < 256) × (second < 256) }
{
    ((second as u16) << 8) | (first as u16)
}

// Whether the letters of a mark stand at the front.
#[tactic(auto, using(crate::proofs::Bytes::same_letters), unfolding(semantics::specs::RunFile::has_mark))]
pub(crate) fn opens(rest: &[u8], mark: &[u8; 2]) -> bool
    ensures { result ≡ has_mark rest.now 0 mark.now }
{
    letters(byte_at(rest, 0), byte_at(rest, 1)) == letters(mark[0], mark[1])
}

// The mark that stands at the front. (The table's comes once and is tried last: an unknown mark is turned away
// as a table out of order is, and the two tests become one, which the other marks need not pass. No match of the two
// letters: those of the table are the width's, and no pattern can name them.)
#[tactic(auto, using(crate::proofs::Bytes::marks), unfolding(semantics::specs::Text::text, semantics::specs::RunFile::mark_at, semantics::specs::RunFile::mark_in))]
#[inline(always)]
pub fn mark_of<W: Word>(rest: &[u8]) -> Mark
    ensures { result ≡ mark_at (layout_of W.flagged) rest.now 0 }
{
    if opens(rest, b"SC") {
        Mark::Schedule
    } else if opens(rest, b"CL") {
        Mark::Cell
    } else if opens(rest, b"OP") {
        Mark::Operation
    } else if opens(rest, &W::table_mark()) {
        Mark::Table
    } else {
        Mark::Unknown
    }
}

// What the bytes from a record on hold, of which the mark is told.
#[tactic(auto, using(crate::proofs::Order::fault_told))]
#[inline(always)]
pub fn read_body<W: Word>(rest: &[u8], position: Position, mark: Mark) -> Result<Record<'_>, Fault>
    ensures { Reads W.flagged rest.now position mark result }
{
    match mark {
        Mark::Table => table::<W>(rest, position),
        Mark::Cell => cell::<W>(rest, position),
        Mark::Operation => operation::<W>(rest, position),
        Mark::Schedule => schedule::<W>(rest, position),
        Mark::Unknown => Err(Fault::Mark(position.at)),
    }
}

// The position past a record.
// Sizes are asked where the record is known: one function of them would be a match again.
#[inline(always)]
fn past<W: Word>(found: Record<'_>, position: Position) -> Position
    requires { Passable W.flagged position found }
    ensures { result ≡ after W.flagged position found.entry }
{
    match found {
        Record::Table(k) => Position {
            at: position.at + 3,
            part: 1,
            size: 1 << (k as usize),
            ..position
        },
        Record::Cell { at, .. } => Position {
            at: position.at + (W::total_bytes() + 6),
            part: 2,
            lowest: at as usize + 1,
            ..position
        },
        Record::Operation { .. } => Position {
            at: position.at + (W::total_bytes() + 5),
            part: 3,
            operations: position.operations + 1,
            ..position
        },
        Record::Schedule(entries) => Position {
            at: position.at + (entries.len() + 3),
            part: 4,
            entries: position.entries + entries.len(),
            ..position
        },
    }
}

// The bytes from an offset on, where a mark is not cut short.
#[inline(always)]
fn rest_of(file: &[u8], at: usize) -> Result<&[u8], Fault>
    ensures { Rest file.now at result }
{
    if file.len() < at || file.len() - at < 2 {
        return Err(Fault::Cut(at));
    }
    Ok(&file[at..])
}

// The record at a position, and the position past it: what the scan makes of it, whatever the position.
#[inline(always)]
pub fn read_record<W: Word>(
    file: &[u8],
    position: Position,
) -> Result<(Record<'_>, Position), Fault>
    ensures read { ReadsAt W.flagged file.now position result }
    ensures judged { as_judged position result ≡ judged (layout_of W.flagged) file.now position }
{
    let rest = rest_of(file, position.at)?;
    let record = read_body::<W>(rest, position, mark_of::<W>(rest))?;
    Ok((record, past::<W>(record, position)))
}

// What a record of some mark holds, where it is whole.
#[inline(always)]
fn fields<W: Word>(rest: &[u8], mark: Mark) -> Record<'_>
    requires { Whole W.flagged rest.now mark }
    ensures { Is W.flagged rest.now 0 mark result }
{
    match mark {
        Mark::Table => Record::Table(rest[2]),
        Mark::Cell => {
            let cell = &rest[..W::total_bytes() + 6];
            Record::Cell {
                at: pair_at(cell, 2),
                key: pair_at(cell, 4),
                total: W::file_total(&cell[6..]),
            }
        }
        Mark::Operation => {
            let operation = &rest[..W::total_bytes() + 5];
            Record::Operation {
                kind: byte_at(operation, 2),
                key: pair_at(operation, 3),
                amount: W::file_total(&operation[5..]),
            }
        }
        Mark::Schedule => {
            let count = rest[2] as usize;
            Record::Schedule(&rest[3..3 + count])
        }
        Mark::Unknown => unreachable!(),
    }
}

// The record at a position of an accepted file: nothing is judged again. (By record_at, which asks whether a
// record is cut short, a file of 4,096 cells takes 266,652 instructions for 228,613.)
#[inline(always)]
pub(crate) fn sound_record<W: Word>(file: &[u8], position: Position) -> (Record<'_>, Position)
    requires { fault_at (run_file (layout_of W.flagged)) file.now position ≡ 0 }
    ensures { ReadsAt W.flagged file.now position (Ok result) }
{
    let rest = &file[position.at..];
    let found = fields::<W>(rest, mark_of::<W>(&rest[..2]));
    (found, past::<W>(found, position))
}

// Whether a record of some mark is not cut short.
#[inline(always)]
fn is_whole<W: Word>(rest: &[u8], mark: Mark) -> bool
    ensures { Tells (Whole W.flagged rest.now mark) result }
{
    match mark {
        Mark::Table => rest.len() >= 3,
        Mark::Cell => rest.len() >= W::total_bytes() + 6,
        Mark::Operation => rest.len() >= W::total_bytes() + 5,
        Mark::Schedule => rest.len() >= 3 + byte_at(rest, 2) as usize,
        Mark::Unknown => false,
    }
}

// The record that begins at an offset, none where its mark is unknown or it is cut short. Its fields are not
// judged.
#[inline(always)]
pub fn record_at<W: Word>(file: &[u8], at: usize) -> Option<Record<'_>>
    ensures { Stands W.flagged file.now at result }
{
    let Ok(rest) = rest_of(file, at) else {
        return None;
    };
    let mark = mark_of::<W>(rest);
    if !is_whole::<W>(rest, mark) {
        return None;
    }
    Some(fields::<W>(rest, mark))
}
