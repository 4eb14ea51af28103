// From the bytes of a run file to the text of its run: the reader, the run on exactly as many cells as the
// file says, and the listing. A file of either width is answered: its first mark says which.
#![tactic(auto)]

ghost use Rattle.std.specs.Prelude.{◌≡◌, ℕ, ◌≤◌, length, map, replicate};
ghost use Rattle.io.specs.Counts.{IsPrefixLen};
ghost use Rattle.semantics.specs.Refusals.{most_operations};
ghost use Rattle.semantics.specs.RunFile.{most_cells};
ghost use Rattle.semantics.specs.Text.{handed};
ghost use Rattle.semantics.specs.Widths.{most_text_of};
ghost use Rattle.semantics.specs.Listing.{refusal_text};
ghost use Rattle.semantics.specs.Response.{response_in, is_wide, response};

use listing::list;
use run::run_words;
use runfile::{is_wide, load_words};
use semantics::{MOST_CELLS, MOST_ENTRIES, MOST_OPERATIONS, Outcome, Written};
use word::Word;

// Writes the line of a refusal, which is the same in every width and needs nothing of the run. (Number and place, no
// enum: what is told of a file is a fixed struct of numbers, as C is told it.)
#[tactic(auto, unfolding(semantics::specs::Listing::listing))]
fn refuse(number: u32, place: usize, out: &mut [u8]) -> Written
    requires { number ≡ 0 → ⊥ }
    ensures { handed (refusal_text number place) out.old ≡ record { written = result; out = out.new } }
{
    let turned_away = Outcome {
        number,
        place,
        done: 0,
        lost: 0,
        idle: 0,
    };
    list::<u32>(turned_away, &[], &[], &[], &[], out)
}

// Reads a file of a width, makes its run, and writes the text. (The cells and the answers are lent: a local array of a
// type parameter does not prove, since its size has no bound. 0 is no refusal: what C is told is a struct of numbers.)
fn respond<W: Word>(file: &[u8], cells: &mut [W], answers: &mut [W], out: &mut [u8]) -> Written
    requires whole { length cells.old ≡ most_cells }
    requires fresh { map W.number answers.old ≡ replicate most_operations 0 }
    ensures { handed (response_in W.flagged file.now) out.old ≡ record { written = result; out = out.new } }
{
    let mut operations = [0u64; MOST_OPERATIONS];
    let mut schedule = [0u8; MOST_ENTRIES];
    let loaded = load_words(file, cells, &mut operations, &mut schedule);
    if loaded.number == 0 {
        let cells = &mut cells[..loaded.cells];
        let operations = &operations[..loaded.operations];
        let mut log = [0u8; MOST_OPERATIONS];
        let outcome = run_words(
            cells,
            operations,
            &schedule[..loaded.entries],
            answers,
            &mut log,
        );
        return list(outcome, operations, answers, &log, cells, out);
    }
    refuse(loaded.number, loaded.place, out)
}

// Writes the text of the run that a file describes, or the line of its refusal: whole, over the front
// of the slice, or not at all if the slice is too short. 98,304 bytes are enough for any narrow file, and
// 148,228 for any file.
pub fn report(file: &[u8], out: &mut [u8]) -> Written
    ensures result { handed (response file.now) out.old ≡ record { written = result; out = out.new } }
    ensures suffices { most_text_of (is_wide file.now) ≤ length out.old → result.number ≡ 0 }
    ensures counted { IsPrefixLen result.length out.new }
{
    if is_wide(file) {
        let mut cells = [0u64; MOST_CELLS];
        let mut answers = [0u64; MOST_OPERATIONS];
        return respond(file, &mut cells, &mut answers, out);
    }
    let mut cells = [0u32; MOST_CELLS];
    let mut answers = [0u32; MOST_OPERATIONS];
    respond(file, &mut cells, &mut answers, out)
}
