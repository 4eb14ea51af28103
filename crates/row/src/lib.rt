// One atomic step of one row, on the one cell that it reads. A row's record turns in one of four ways, each a method
// by value; above them stands the step over a lent row. What is offered takes every input: a row that has finished, or
// whose record does not stand within the table, takes no step, and nothing changes.
#![tactic(auto)]

ghost use Rattle.std.specs.Prelude.{◌≡◌, cond, ◌+◌, ◌<◌, ◌^◌, None};
ghost use Rattle.row.specs.Row.{passing, holding_word, losing, finishing, turned, is_within, pending_of, step_taken, after_step, skims, skimmed, passed_on};

use semantics::Total;
use semantics::rules::Bounds;
use semantics::values::{Cell, Held, Operation, Pending, Stepped, Turn};

// How far a row has come at its cell: it reads, it holds the word that it has seen there, for the swap, or it has
// finished. Its answer is not kept: the turn that finishes it has the answer.
#[derive(Clone, Copy)]
pub enum Stage {
    Reading,
    Holding(Held<Total>),
    Finished,
}

// A row's record: the cell that it reads next, how many cells it has passed, and its stage there.
#[derive(Clone, Copy)]
pub struct Record {
    pub at: usize,
    pub passed: usize,
    pub stage: Stage,
}

// A row: its operation, and how far it has come. The record alone changes, and stands apart so that a step copies and
// writes no operation.
#[derive(Clone, Copy)]
pub struct Row {
    pub operation: Operation<Total>,
    pub progress: Record,
}

impl Record {
    // Whether it stands at a cell of the table, with fewer passed than there are.
    fn is_within(self, cells: usize) -> bool
        ensures { result ≡ is_within cells self }
    {
        self.at < cells && self.passed < cells
    }

    // On to the following cell; the one after the last is cell 0.
    fn pass(self, cells: usize) -> Record
        requires at { self.at < cells }
        requires few { self.passed < cells }
        ensures { result ≡ passing cells self }
    {
        let next = self.at + 1;
        Record {
            at: if next == cells { 0 } else { next },
            passed: self.passed + 1,
            stage: Stage::Reading,
        }
    }

    // On to the following cell, whatever its stage, of a record within the table; any other stays.
    pub fn pass_on(self, cells: usize) -> Record
        ensures { result ≡ passed_on cells self }
    {
        if self.is_within(cells) {
            self.pass(cells)
        } else {
            self
        }
    }

    // A word that it has seen is held for the swap.
    fn hold(self, held: Held<Total>) -> Record
        ensures { result ≡ holding_word self held }
    {
        Record {
            stage: Stage::Holding(held),
            ..self
        }
    }

    // The swap is lost: the same cell is read again.
    fn lose(self) -> Record
        ensures { result ≡ losing self }
    {
        Record {
            stage: Stage::Reading,
            ..self
        }
    }

    // Nothing is left to do, and nothing is kept but that.
    fn finish(self) -> Record
        ensures { result ≡ finishing }
    {
        Record {
            at: 0,
            passed: 0,
            stage: Stage::Finished,
        }
    }

    // After a turn.
    fn turn(self, cells: usize, turn: Turn<Total>) -> Record
        requires at { self.at < cells }
        requires few { self.passed < cells }
        ensures { result ≡ turned cells self turn }
    {
        match turn {
            Turn::Passes => self.pass(cells),
            Turn::Holds(held) => self.hold(held),
            Turn::Loses => self.lose(),
            Turn::Finishes(_) => self.finish(),
        }
    }

    // Where it stands in the rules, if it has not finished.
    fn pending(self) -> Option<Pending<Total>>
        ensures { result ≡ pending_of self }
    {
        match self.stage {
            Stage::Reading => Some(Pending::Reading(self.passed)),
            Stage::Holding(held) => Some(Pending::Holding(self.passed, held)),
            Stage::Finished => None,
        }
    }
}

impl Row {
    // It begins reading at a cell.
    pub fn new(operation: Operation<Total>, home: usize) -> Row
        ensures { result ≡ record { operation = operation; progress = record { at = home; passed = 0; stage = Stage.Reading } } }
    {
        Row {
            operation,
            progress: Record {
                at: home,
                passed: 0,
                stage: Stage::Reading,
            },
        }
    }

    // Whether the step at a cell of this key is a pass, as most are: it reads, and the cell, which is not the last that
    // it may read, has another key or is a tombstone. Then it is taken here, and no more of the cell is looked at.
    pub fn skims(&mut self, cells: usize, key: u16) -> bool
        ensures told { result ≡ skims cells self.old key }
        ensures turned { self.new ≡ cond result (skimmed cells self.old) self.old }
    {
        let progress = self.progress;
        if let Stage::Reading = progress.stage {
            if key != 0
                && key != self.operation.key
                && progress.at < cells
                && progress.passed < cells - 1
            {
                self.progress = progress.pass_on(cells);
                return true;
            }
        }
        false
    }

    // One step at the cell where it stands, over the lent row, whose record turns in place: what the step leaves of that
    // cell, and how the record turned, if a step is taken. A row that has finished takes none, and stays as it is.
    #[inline(always)]
    pub fn step(&mut self, bounds: Bounds, cell: Cell<Total>) -> Option<Stepped<Total>>
        ensures taken { result ≡ step_taken bounds self.old cell }
        ensures turned { self.new ≡ after_step bounds self.old cell }
        ensures finished { self.old.progress.stage ≡ Stage.Finished → (result ≡ None) × (self.new ≡ self.old) }
    {
        let progress = self.progress;
        if !progress.is_within(bounds.cells) {
            return None;
        }
        let pending = progress.pending()?;
        let stepped = self.operation.step(bounds, pending, cell);
        self.progress = progress.turn(bounds.cells, stepped.turn);
        Some(stepped)
    }
}
