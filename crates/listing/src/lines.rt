// The lines of a listing.
ghost use Rattle.std.specs.Prelude.{◌≡◌, ◌++◌, length, get_or, map, min};
ghost use Rattle.semantics.specs.Text.{text, decimal, texts_below};
ghost use Rattle.semantics.specs.Listing.{line_end, refusal_text, counts_text, operation_text, answer_text, row_text, contents_text, cell_text, log_text, listing};
ghost use Rattle.semantics.specs.Widths.{text_of};
ghost use Rattle.listing.specs.Writing.{wrote};

use crate::Run;
use crate::writer::Writer;
use semantics::Outcome;
use word::Word;

impl<'a> Writer<'a> {
    #[tactic(auto, using(crate::proofs::Writing::writes), unfolding(semantics::specs::Text::text))]
    fn end_line(&mut self)
        ensures { wrote self.old line_end ≡ self.new }
    {
        self.put(b'\n');
    }

    #[tactic(auto, using(crate::proofs::RowLines::rows_told), unfolding(semantics::specs::Text::text))]
    fn put_amount<W: Word>(&mut self, operation: u64)
        ensures { wrote self.old
            (text " " ++ decimal (W.width.operation_key operation) ++ text " " ++ text_of W.flagged (W.width.amount_in operation))
            ≡ self.new }
    {
        self.put_labelled(b" ", W::row_key(operation) as u64);
        self.put_total::<W>(W::row_amount(operation));
    }

    #[tactic(auto, using(crate::proofs::RowLines::rows_told), unfolding(semantics::specs::Text::text))]
    fn put_operation<W: Word>(&mut self, i: usize, operation: u64)
        ensures { wrote self.old (operation_text W.width (text_of W.flagged) i operation) ≡ self.new }
    {
        self.put_labelled(b"row ", i as u64);
        self.put_kind(W::row_kind(operation));
        self.put_amount::<W>(operation);
    }

    #[tactic(auto, using(crate::proofs::RowLines::rows_told), unfolding(semantics::specs::Text::text))]
    fn put_answer<W: Word>(&mut self, answer: W)
        ensures { wrote self.old (answer_text W.width (text_of W.flagged) (W.number answer)) ≡ self.new }
    {
        self.put_code(answer.code() as u64);
        self.put_total::<W>(answer.answer_total());
    }

    #[tactic(auto, using(crate::proofs::RowLines::rows_told), unfolding(semantics::specs::Text::text))]
    fn put_row<W: Word>(&mut self, i: usize, operation: u64, answer: W)
        ensures { wrote self.old (row_text W.width (text_of W.flagged) i operation (W.number answer)) ≡ self.new }
    {
        self.put_operation::<W>(i, operation);
        self.put_answer(answer);
        self.end_line();
    }

    // A line for each operation; one that has no answer lent is listed with 0, unfinished.
    #[tactic(auto, using(crate::proofs::Listed::entries_told))]
    pub fn put_rows<W: Word>(&mut self, operations: &[u64], answers: &[W])
        ensures { wrote self.old
            (texts_below (length operations.now)
            (λ i. row_text W.width (text_of W.flagged) i (get_or operations.now i 0) (get_or (map W.number answers.now) i 0)))
            ≡ self.new }
    {
        for (i, operation) in operations.iter().enumerate() {
            self.put_row(i, *operation, word_at(answers, i));
        }
    }

    // What a cell that is not empty holds.
    #[tactic(auto, using(crate::proofs::CellLines::cells_told), unfolding(semantics::specs::Text::text))]
    fn put_contents<W: Word>(&mut self, cell: W)
        ensures { wrote self.old (contents_text W.width (text_of W.flagged) (W.number cell)) ≡ self.new }
    {
        if cell.is_tombstone() {
            self.put_bytes(b" gone");
        } else {
            self.put_labelled(b" ", cell.key() as u64);
            self.put_total::<W>(cell.total());
        }
    }

    // The line of a cell; none for an empty one.
    #[tactic(auto, using(crate::proofs::CellLines::cells_told), unfolding(semantics::specs::Text::text))]
    fn put_cell<W: Word>(&mut self, i: usize, cell: W)
        ensures { wrote self.old (cell_text W.width (text_of W.flagged) i (W.number cell)) ≡ self.new }
    {
        if !cell.is_empty() {
            self.put_labelled(b"cell ", i as u64);
            self.put_contents(cell);
            self.end_line();
        }
    }

    // The lines of the cells.
    #[tactic(auto, using(crate::proofs::Listed::entries_told))]
    pub fn put_cells<W: Word>(&mut self, cells: &[W])
        ensures { wrote self.old
            (texts_below (length cells.now) (λ i. cell_text W.width (text_of W.flagged) i (get_or (map W.number cells.now) i 0)))
            ≡ self.new }
    {
        for (i, cell) in cells.iter().enumerate() {
            self.put_cell(i, *cell);
        }
    }

    // The log's first bytes, one for each operation that finished.
    #[tactic(auto, using(crate::proofs::Listed::entries_told), unfolding(semantics::specs::Text::text))]
    fn put_entries(&mut self, done: usize, log: &[u8])
        ensures { wrote self.old (texts_below (min done (length log.now)) (λ i. text " " ++ decimal (get_or log.now i 0))) ≡ self.new }
    {
        for entry in &log[..done.min(log.len())] {
            self.put_labelled(b" ", *entry as u64);
        }
    }

    // The line of the log.
    #[tactic(auto, using(crate::proofs::Listed::log_told), unfolding(semantics::specs::Text::text))]
    fn put_log(&mut self, done: usize, log: &[u8])
        ensures { wrote self.old (log_text done log.now) ≡ self.new }
    {
        self.put_bytes(b"log");
        self.put_entries(done, log);
        self.end_line();
    }

    // The end of a line: two numbers, a label before each.
    #[tactic(auto, using(crate::proofs::Counts::lines_told), unfolding(semantics::specs::Text::text))]
    fn put_last_two(&mut self, label: &[u8], n: u64, second: &[u8], m: u64)
        ensures { wrote self.old (label.now ++ decimal n ++ second.now ++ decimal m ++ line_end) ≡ self.new }
    {
        self.put_labelled(label, n);
        self.put_labelled(second, m);
        self.end_line();
    }

    // The line of a refusal.
    // By number: reader, converter and run have reasons of their own.
    #[tactic(auto, unfolding(semantics::specs::Text::text, semantics::specs::Listing::refusal_text))]
    pub fn put_refusal(&mut self, number: u32, place: usize)
        ensures { wrote self.old (refusal_text number place) ≡ self.new }
    {
        self.put_last_two(b"refused ", number as u64, b" at ", place as u64);
    }

    // The line of the counts.
    #[tactic(auto, using(crate::proofs::Counts::lines_told), unfolding(semantics::specs::Text::text))]
    pub fn put_counts(&mut self, rows: usize, outcome: Outcome)
        ensures { wrote self.old (counts_text rows outcome) ≡ self.new }
    {
        self.put_labelled(b"rows ", rows as u64);
        self.put_labelled(b" done ", outcome.done as u64);
        self.put_last_two(
            b" lost ",
            outcome.lost as u64,
            b" idle ",
            outcome.idle as u64,
        );
    }

    // The lines of a run, or that of a refusal. (0 is no refusal: what C is told of a run is a fixed struct of numbers.)
    #[tactic(auto, using(crate::proofs::Listed::listing_told))]
    pub(crate) fn put_run<W: Word>(&mut self, run: &Run<'_, W>)
        ensures { wrote self.old
            (listing W.width (text_of W.flagged) run.now.outcome run.now.operations.now (map W.number run.now.answers.now) run.now.log.now (map W.number run.now.cells.now))
            ≡ self.new }
    {
        let outcome = run.outcome;
        if outcome.number != 0 {
            self.put_refusal(outcome.number, outcome.place);
        } else {
            self.put_counts(run.operations.len(), outcome);
            self.put_rows(run.operations, run.answers);
            self.put_log(outcome.done, run.log);
            self.put_cells(run.cells);
        }
    }
}

// A word, or that of an empty cell past the last.
// No Option: the definition is total.
fn word_at<W: Word>(words: &[W], i: usize) -> W
    ensures { W.number result ≡ get_or (map W.number words.now) i 0 }
{
    match words.get(i) {
        Some(word) => *word,
        None => W::zero(),
    }
}
