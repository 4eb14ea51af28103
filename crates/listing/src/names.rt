// The words of kinds, answers and totals, each after a blank. Kinds and answers come as the numbers of their words, and
// not as enums, since rows that no check saw are listed too: a number that is no kind's, or no answer's, has no word.
ghost use Rattle.std.specs.Prelude.{◌≡◌, ◌++◌};
ghost use Rattle.semantics.specs.Text.{text};
ghost use Rattle.semantics.specs.Listing.{kind_word, code_word};
ghost use Rattle.semantics.specs.Widths.{text_of};
ghost use Rattle.listing.specs.Writing.{wrote};

use crate::writer::Writer;
use semantics::Total;
use word::Word;

#[tactic(auto, unfolding(semantics::specs::Text::text, semantics::specs::Listing::kind_word))]
fn kind_name(kind: u8) -> &'static [u8]
    ensures { result.now ≡ text " " ++ kind_word kind }
{
    match kind {
        1 => b" find",
        2 => b" insert",
        3 => b" update",
        4 => b" add",
        5 => b" remove",
        _ => b" ",
    }
}

#[tactic(auto, unfolding(semantics::specs::Text::text, semantics::specs::Listing::code_word))]
fn code_name(code: u64) -> &'static [u8]
    ensures { result.now ≡ text " " ++ code_word code }
{
    match code {
        0 => b" unfinished",
        1 => b" found",
        2 => b" inserted",
        3 => b" present",
        4 => b" changed",
        5 => b" removed",
        6 => b" absent",
        7 => b" full",
        8 => b" capped",
        9 => b" held",
        _ => b" ",
    }
}

impl<'a> Writer<'a> {
    // A blank and the word of a kind; the blank alone for a number that is no kind.
    pub fn put_kind(&mut self, kind: u8)
        ensures { wrote self.old (text " " ++ kind_word kind) ≡ self.new }
    {
        self.put_bytes(kind_name(kind));
    }

    // A blank and the word of an answer's code, in the same way.
    pub fn put_code(&mut self, code: u64)
        ensures { wrote self.old (text " " ++ code_word code) ≡ self.new }
    {
        self.put_bytes(code_name(code));
    }

    // A blank and a total or an amount, as its width writes it. (It asks the width itself: the words are the listing's and
    // no matter of the trait of words.)
    #[tactic(auto, using(crate::proofs::TotalTexts::totals_told), unfolding(semantics::specs::Text::text))]
    pub fn put_total<W: Word>(&mut self, total: Total)
        ensures { wrote self.old (text " " ++ text_of W.flagged total) ≡ self.new }
    {
        if !total.saturated {
            self.put_labelled(b" ", total.amount as u64);
        } else if W::is_flagged() {
            self.put_labelled(b" atleast ", total.amount as u64);
        } else {
            self.put_bytes(b" pinned");
        }
    }
}
