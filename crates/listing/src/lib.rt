// The text of a run at either width: the counts, a line for each operation with its answer, the log, and a line
// for each cell that is not empty; or the line of a refusal.
#![tactic(auto, using(crate::proofs::Writing::writes))]

ghost use Rattle.std.specs.Prelude.{◌≡◌, ◌<◌, leb, length, map};
ghost use Rattle.std.specs.List.{list_all};
ghost use Rattle.semantics.specs.Text.{handed};
ghost use Rattle.semantics.specs.Words.{tombstone_key};
ghost use Rattle.semantics.specs.Listing.{refusal_text, listing};
ghost use Rattle.semantics.specs.Widths.{text_of, most_text_of};
ghost use Rattle.listing.specs.Writing.{written, last_position};

mod lines; // lines.rt: the lines of a listing
mod names; // names.rt: the words of kinds, answers and totals
pub mod writer; // writer.rt: bytes and numbers into a lent slice

use semantics::{MOST_CELLS, MOST_OPERATIONS, MOST_TEXT, MOST_WIDE_TEXT, Outcome, Written};
use word::Word;
use writer::Writer;

// What a run returned, with its operations and what it left.
#[derive(Drop)]
pub(crate) struct Run<'a, W> {
    pub outcome: Outcome,
    pub operations: &'a [u64],
    pub answers: &'a [W],
    pub log: &'a [u8],
    pub cells: &'a [W],
}

// No text of a run that this width takes is longer. (It asks the width itself: the texts are the listing's and no matter
// of the trait of words, so a method there would be no plainer.)
#[tactic(auto, unfolding(semantics::specs::Widths::most_text_of))]
fn most_text<W: Word>() -> usize
    ensures { result ≡ most_text_of W.flagged }
{
    if W::is_flagged() {
        MOST_WIDE_TEXT
    } else {
        MOST_TEXT
    }
}

// Whether every key has sixteen bits. It is true of all cells: it stands here for the proof, which learns of a word's
// key from a call alone.
fn are_keys<W: Word>(cells: &[W]) -> bool
    ensures { result ≡ list_all (λ w. leb (W.width.key_of (W.number w)) tombstone_key) cells.now }
{
    cells.iter().all(|cell| cell.key() <= 65535)
}

impl<'a, W: Word> Run<'a, W> {
    // Its text, from the slice's front on. It returns how long it is.
    #[tactic(auto, unfolding(crate::specs::Writing::wrote))]
    fn put(&self, out: &mut [u8]) -> usize
        ensures { written (record { at = 0; out = out.old })
            (listing W.width (text_of W.flagged) self.now.outcome self.now.operations.now (map W.number self.now.answers.now) self.now.log.now (map W.number self.now.cells.now))
            ≡ record { at = result; out = out.new } }
    {
        let mut writer = Writer { out, at: 0 };
        writer.put_run(self);
        writer.at
    }

    // Whether its text fits into so many bytes. Where any would, it is not looked at; elsewhere it is measured, by
    // writing it into an empty slice.
    fn fits(&self, room: usize) -> bool
        requires { room < last_position }
        ensures { result ≡ leb
            (length (listing W.width (text_of W.flagged) self.now.outcome self.now.operations.now (map W.number self.now.answers.now) self.now.log.now (map W.number self.now.cells.now)))
            room }
    {
        if most_text::<W>() <= room
            && self.operations.len() <= MOST_OPERATIONS
            && self.log.len() <= MOST_OPERATIONS
            && self.cells.len() <= MOST_CELLS
            && are_keys(self.cells)
        {
            return true;
        }
        let mut nothing = [0u8; 0];
        self.put(&mut nothing) <= room
    }
}

// Writes the text of what a run returned, whole over the front of the slice, or not at all if it is too short, which is
// 3. (What C is told: a fixed struct of numbers.)
#[tactic(auto, using(crate::proofs::Listed::handing))]
pub fn list<W: Word>(
    outcome: Outcome,
    operations: &[u64],
    answers: &[W],
    log: &[u8],
    cells: &[W],
    out: &mut [u8],
) -> Written
    ensures { handed (listing W.width (text_of W.flagged) outcome operations.now (map W.number answers.now) log.now (map W.number cells.now)) out.old
        ≡ record { written = result; out = out.new } }
{
    let run = Run {
        outcome,
        operations,
        answers,
        log,
        cells,
    };
    if run.fits(out.len()) {
        Written {
            number: 0,
            place: 0,
            length: run.put(out),
        }
    } else {
        Written {
            number: 3,
            place: 0,
            length: 0,
        }
    }
}

// The line of a refusal, from a position on. It returns the position after it. (Number and place, no enum: a reader, a
// converter and a run are turned away for reasons of different enums.)
#[tactic(auto, unfolding(crate::specs::Writing::wrote))]
pub fn put_refusal(out: &mut [u8], at: usize, number: u32, place: usize) -> usize
    ensures { written (record { at = at; out = out.old }) (refusal_text number place) ≡ record { at = result; out = out.new } }
{
    let mut writer = Writer { out, at };
    writer.put_refusal(number, place);
    writer.at
}
