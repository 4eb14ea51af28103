// A whole schedule, of a table of either width. A call is judged first, and only then is anything written: every
// row's 0 goes to the lent answers; then each entry takes one step of the row that it names, or is idle, and the
// step that finishes a row writes its answer and its log byte at once. There is no other array of answers. What
// asks something of its caller is private here: every function that is offered takes every input.
#![tactic(auto)]

ghost use Rattle.std.specs.Prelude.{◌≡◌, false, map, slice_set, get_or};
ghost use Rattle.semantics.specs.Run.{run_result, refusal_of};
ghost use Rattle.semantics.specs.Sets.{is_in};
ghost use Rattle.semantics.specs.Words.{decode, decode_operation};
ghost use Rattle.semantics.specs.Narrow.{narrow_width};
ghost use Rattle.semantics.specs.Wide.{wide_width};
ghost use Rattle.semantics.specs.Demands.{Demands};
ghost use Rattle.row.specs.Row.{is_holding, step_taken};
ghost use Rattle.run.specs.Rows.{at_home, blank_rows, first_records, first_row, first_rows};
ghost use Rattle.run.specs.Entry.{cleared, stored, stands, finished_by, taken_of};
ghost use Rattle.run.specs.Underway.{KeepsStep, Keeps};

use bitset::{has, size, with};
use hash::home;
use judge::check;
use row::{Record, Row, Stage};
use semantics::rules::{Bounds, NOTHING};
use semantics::values::{Cell, Kind, Operation, Turn};
use semantics::{MOST_OPERATIONS, Outcome, Total};
use word::Word;

// What stands in the room for a row that has none.
// No Option: there is no heap, and the room is for 64 whatever their number.
const NO_ROW: Row = Row {
    operation: Operation {
        kind: Kind::Find,
        key: 0,
        amount: NOTHING,
    },
    progress: Record {
        at: 0,
        passed: 0,
        stage: Stage::Reading,
    },
};

// The row of a word, which reads first at the home of its key, whatever its kind.
#[tactic(auto, unfolding(semantics::specs::Words::decode_operation))]
fn row_at_home<W: Word>(word: u64, cells: u32) -> Row
    ensures { result ≡ record { operation = decode_operation W.width word; progress = at_home W.width cells word } }
{
    let operation = W::operation(word);
    Row::new(operation, home(operation.key, cells) as usize)
}

// The row with which a run begins. A word whose number is no kind's, which only a call that is turned away has, gets a
// row that takes no step.
#[tactic(auto, unfolding(semantics::specs::Words::decode_operation))]
fn first_row<W: Word>(word: u64, cells: u32) -> Row
    ensures { result ≡ first_row W.width cells word }
{
    let row = row_at_home::<W>(word, cells);
    Row {
        operation: row.operation,
        progress: match Kind::try_from(W::row_kind(word)) {
            Ok(_) => row.progress,
            Err(_) => Record {
                at: 0,
                passed: 0,
                stage: Stage::Finished,
            },
        },
    }
}

// Each operation reads first at the home of its key, in as many cells as are given, whatever its kind. There is room
// for 64: any further ones have no record.
pub fn begin<W: Word>(operations: &[u64], cells: u32) -> [Record; MOST_OPERATIONS]
    ensures { result ≡ first_records W.width cells operations.now }
{
    let mut records = [NO_ROW.progress; MOST_OPERATIONS];
    // By index, as in lay_rows.
    for (i, word) in operations.iter().enumerate() {
        if i < MOST_OPERATIONS {
            records[i] = row_at_home::<W>(*word, cells).progress;
        }
    }
    records
}

// Lays the rows with which a run begins into room that has none yet. There is room for 64: any further operations have no
// row. (Lent, and not returned: the room would be copied. It is never built into the loop over a schedule, whose steps
// would take more time.)
#[inline(never)]
fn lay_rows<W: Word>(rows: &mut [Row; MOST_OPERATIONS], operations: &[u64], cells: u32)
    requires { rows.old ≡ blank_rows }
    ensures { rows.new ≡ first_rows W.width cells operations.now }
{
    // By index: over `take` or `zip` the invariant would speak of the iterator's own fields, which is no plainer.
    for (i, word) in operations.iter().enumerate() {
        if i < MOST_OPERATIONS {
            rows[i] = first_row::<W>(*word, cells);
        }
    }
}

// Each row of a run begins in as many cells as are given. There is room for 64: any further operations have no row. (It is for
// whoever wants the rows alone: a run lays them into room of its own.)
#[tactic(auto, unfolding(crate::specs::Rows::blank_rows))]
pub fn begin_rows<W: Word>(operations: &[u64], cells: u32) -> [Row; MOST_OPERATIONS]
    ensures { result ≡ first_rows W.width cells operations.now }
{
    let mut rows = [NO_ROW; MOST_OPERATIONS];
    lay_rows::<W>(&mut rows, operations, cells);
    rows
}

// The first n rows have no answer yet: as many words as there are of those are 0.
pub fn clear<W: Word>(answers: &mut [W], n: usize)
    ensures { map W.number answers.new ≡ cleared (map W.number answers.old) n }
{
    // By index: over `take` the invariant would speak of the iterator's own fields, which is no plainer.
    for i in 0..n.min(answers.len()) {
        answers[i] = W::zero();
    }
}

// The cell at a place, past the last one empty.
// No Option, here and below: the definition is total.
fn cell_at<W: Word>(cells: &[W], at: usize) -> Cell<Total>
    ensures { result ≡ decode W.width (get_or (map W.number cells.now) at 0) }
{
    if at < cells.len() {
        cells[at].decode()
    } else {
        Cell::Empty
    }
}

// Its key, which most steps are told by, before anything else is taken apart.
fn key_at<W: Word>(cells: &[W], at: usize) -> u16
    ensures { result ≡ W.width.key_of (get_or (map W.number cells.now) at 0) }
{
    if at < cells.len() { cells[at].key() } else { 0 }
}

// Stores a value at a place, past the last one nowhere.
fn put<T: Copy>(values: &mut [T], at: usize, value: T)
    ensures { values.new ≡ slice_set values.old at value }
{
    if at < values.len() {
        values[at] = value;
    }
}

// What a step that finishes leaves of its cell, at the place of the record that took it: only the swap of a row that
// holds a word stores.
#[tactic(auto, using(crate::proofs::Entry::numbers_set))]
fn store<W: Word>(cells: &mut [W], from: Record, cell: Cell<Total>)
    ensures { map W.number cells.new ≡ stored W.width (is_holding from.stage) from.at cell (map W.number cells.old) }
{
    if matches!(from.stage, Stage::Holding(_)) {
        put(cells, from.at, W::encode(cell));
    }
}

// What became of an entry: its row had finished, so that it is idle; or the row took a step, after which it goes on,
// also after it has lost its swap, or has finished.
#[derive(Clone, Copy)]
pub enum Taken {
    Idle,
    GoesOn,
    Lost,
    Finished,
}

// A step of a row, whose key tells no pass. It is built into the loop over the schedule: as a function apart it would spare
// a schedule of passes about a seventh of its instructions, and cost a run of steps that are no passes up to two thirds
// more time.
// The caller lends three slices, as C does: a struct of them would be packed and unpacked at each call. The set of
// finished rows is a mask, a form that the specification names: a set would need a heap.
#[inline(always)]
fn act<W: Word>(
    cells: &mut [W],
    answers: &mut [W],
    log: &mut [u8],
    row: &mut Row,
    bounds: Bounds,
    entry: u8,
    finished: u64,
) -> Taken
    ensures holds { KeepsStep W.width bounds entry (stands (map W.number cells.old) (map W.number answers.old) log.old finished)
        (stands (map W.number cells.new) (map W.number answers.new) log.new (finished_by finished entry result)) row.old row.new result }
    ensures answers { result ≡ taken_of false (step_taken bounds row.old (decode W.width (get_or (map W.number cells.old) row.old.progress.at 0))) }
{
    let from = row.progress;
    let Some(stepped) = row.step(bounds, cell_at(cells, from.at)) else {
        return Taken::GoesOn;
    };
    match stepped.turn {
        Turn::Passes | Turn::Holds(_) => Taken::GoesOn,
        Turn::Loses => Taken::Lost,
        Turn::Finishes(answer) => {
            store(cells, from, stepped.cell);
            put(answers, entry as usize, W::answer(answer));
            put(log, size(finished), entry);
            Taken::Finished
        }
    }
}

// Takes one step of a row that is lent, for an entry of a schedule that names it, whatever the set of finished rows has.
// Where the step finishes the row, its answer and its place in the log are written at once. After every entry the slices
// hold what a run ending there leaves: if they hold what k entries leave, and the row that entry k names has not
// finished, they hold afterwards what k + 1 leave. What it answers is an equation for every entry, also one that is no
// row's.
pub fn take<W: Word>(
    cells: &mut [W],
    answers: &mut [W],
    log: &mut [u8],
    row: &mut Row,
    bounds: Bounds,
    entry: u8,
    finished: u64,
) -> Taken
    ensures holds { KeepsStep W.width bounds entry (stands (map W.number cells.old) (map W.number answers.old) log.old finished)
        (stands (map W.number cells.new) (map W.number answers.new) log.new (finished_by finished entry result)) row.old row.new result }
    ensures answers { result ≡ taken_of false (step_taken bounds row.old (decode W.width (get_or (map W.number cells.old) row.old.progress.at 0))) }
{
    if row.skims(bounds.cells, key_at(cells, row.progress.at)) {
        return Taken::GoesOn;
    }
    act(cells, answers, log, row, bounds, entry, finished)
}

// Takes one entry of a schedule, of a row that is lent: idle, or a step by take. After every entry the slices hold what
// a run ending there leaves: if they hold what k entries leave, they hold afterwards what k + 1 leave. An entry whose row
// has finished leaves all as it was, and counts one idle. Any other takes one step of its row. What it answers is an
// equation for every entry, also one that is no row's.
pub fn take_entry<W: Word>(
    cells: &mut [W],
    answers: &mut [W],
    log: &mut [u8],
    row: &mut Row,
    bounds: Bounds,
    entry: u8,
    finished: u64,
) -> Taken
    ensures holds { Keeps W.width bounds entry (stands (map W.number cells.old) (map W.number answers.old) log.old finished)
        (stands (map W.number cells.new) (map W.number answers.new) log.new (finished_by finished entry result)) row.old row.new result }
    ensures answers { result ≡ taken_of (is_in finished entry) (step_taken bounds row.old (decode W.width (get_or (map W.number cells.old) row.old.progress.at 0))) }
{
    if has(finished, entry) {
        return Taken::Idle;
    }
    take(cells, answers, log, row, bounds, entry, finished)
}

// Takes the schedule's entries in turn, on a call that is not turned away. After every entry the slices hold what a
// run ending there leaves, a run of the entries so far: that is all that the loop keeps, and take_entry promises it.
fn entries<W: Word>(
    cells: &mut [W],
    operations: &[u64],
    schedule: &[u8],
    answers: &mut [W],
    log: &mut [u8],
) -> Outcome
    requires { (refusal_of W.width (map W.number cells.old) operations.now schedule.now (map W.number answers.old) log.old).number ≡ 0 }
    ensures { run_result W.width (map W.number cells.old) operations.now schedule.now (map W.number answers.old) log.old
        ≡ record { outcome = result; cells = map W.number cells.new; answers = map W.number answers.new; log = log.new } }
{
    let bounds = Bounds {
        ceiling: W::ceiling(),
        cells: cells.len(),
    };
    clear(answers, operations.len());
    let mut rows = [NO_ROW; MOST_OPERATIONS];
    lay_rows::<W>(&mut rows, operations, cells.len() as u32);
    let mut finished = 0u64;
    let mut lost = 0usize;
    let mut idle = 0usize;
    for entry in schedule {
        let i = *entry as usize;
        let taken = take_entry(cells, answers, log, &mut rows[i], bounds, *entry, finished);
        match taken {
            Taken::GoesOn => {}
            Taken::Lost => lost += 1,
            Taken::Finished => finished = with(finished, *entry),
            Taken::Idle => idle += 1,
        }
    }
    Outcome {
        number: 0,
        place: 0,
        done: size(finished),
        lost,
        idle,
    }
}

// A whole run, on a table of either width. The call is judged first, and one that is turned away alters nothing. (It is never
// built into its caller, where the arrays of a report would be cleared twice.)
#[inline(never)]
pub fn run_words<W: Word>(
    cells: &mut [W],
    operations: &[u64],
    schedule: &[u8],
    answers: &mut [W],
    log: &mut [u8],
) -> Outcome
    ensures { Demands W.width (map W.number cells.old) operations.now schedule.now (map W.number answers.old) log.old
        (record { outcome = result; cells = map W.number cells.new; answers = map W.number answers.new; log = log.new }) }
{
    match check(cells, operations, schedule, answers.len(), log.len()) {
        Ok(()) => entries(cells, operations, schedule, answers, log),
        Err(reason) => Outcome::from(reason),
    }
}

// Runs a schedule: the operations that its entries name take one atomic step each, on the cells of a narrow table.
//
// The call is judged first, and one that is turned away alters nothing. Otherwise the cells, an
// answer for each operation and a log byte for each that finished are written, and what the slices
// hold past those stays. All that is promised of a call and its result is one page,
// semantics/specs/Demands.antt: whatever the schedule, and after any number of its entries.
//
// This and the next are two public functions with a promise each, which C calls: one generic function is behind them.
pub fn run(
    cells: &mut [u32],
    operations: &[u64],
    schedule: &[u8],
    answers: &mut [u32],
    log: &mut [u8],
) -> Outcome
    ensures { Demands narrow_width cells.old operations.now schedule.now answers.old log.old
        (record { outcome = result; cells = cells.new; answers = answers.new; log = log.new }) }
{
    run_words(cells, operations, schedule, answers, log)
}

// The same of a wide table, whose totals have 32 bits and a flag: the same page at the other width.
pub fn run_wide(
    cells: &mut [u64],
    operations: &[u64],
    schedule: &[u8],
    answers: &mut [u64],
    log: &mut [u8],
) -> Outcome
    ensures { Demands wide_width cells.old operations.now schedule.now answers.old log.old
        (record { outcome = result; cells = cells.new; answers = answers.new; log = log.new }) }
{
    run_words(cells, operations, schedule, answers, log)
}
