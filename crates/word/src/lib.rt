// The words of a table: a cell or an answer is a u32 in the narrow width and a u64 in the wide one, and an
// operation (the specification's word: row) is a u64 in both. What differs between the widths stands behind a
// trait, whose ghost members are the layouts that the definitions have. Fields are taken out and put in by
// shifts and masks; the contracts say each as a quotient or a remainder, so that callers need not reason about
// bits. Every function takes every input.
#![tactic(auto)]

ghost use Rattle.std.specs.Prelude.{◌≡◌, ℕ, Bool, cond, ◌≤◌, true, eqb};
ghost use Rattle.semantics.specs.Words.{Width, is_live_key, decode, encode, answer_word, decode_operation, carried};
ghost use Rattle.semantics.specs.Cells.{code_of, total_of};
ghost use Rattle.semantics.specs.Narrow.{bits_above_kind};
ghost use Rattle.semantics.specs.Wide.{wide_bits_above_kind};
ghost use Rattle.semantics.specs.RunFile.{layout_of};
ghost use Rattle.semantics.specs.Widths.{width_of};
ghost use Rattle.semantics.proofs.Words.{Packing};
ghost use Rattle.std.proofs.Math.Option.{some};
ghost use Rattle.word.specs.Fits.{FitsCell, FitsAnswer, truncated, truncated_cell};
ghost use Rattle.word.specs.Files.{ReadsTotal};

pub mod bytes; // bytes.rt: numbers of several bytes in a file
mod allowed; // allowed.rt: what a run takes of keys and kinds
mod narrow; // narrow.rt: the words of 32 bits
mod wide; // wide.rt: the words of 64 bits, whose totals have a flag

use allowed::fields_allowed;
pub use allowed::is_live_key;
pub use narrow::narrow_total;
use semantics::Total;
use semantics::rules::NOTHING;
use semantics::values::{Answer, Cell, Kind, Operation};

pub trait Word: Copy {
    // Where the fields lie in a word of this width, and the number that a word is.
    ghost width: { Width };

    ghost number: { Self → ℕ };

    // Whether a total has a flag, in a word and before it in a file, which tells the two widths apart.
    ghost flagged: { Bool };

    // The largest amount, at which adding totals holds: 65,535, or 4,294,967,295 where there is a flag.
    fn ceiling() -> u32
        ensures { result ≡ width.ceiling };

    // The word 0: an empty cell, and the answer of an operation that has not finished.
    fn zero() -> Self
        ensures { number result ≡ 0 };

    // The key of a cell, 0 to 65,535: its highest sixteen bits, which are bits 16 to 31 or 48 to 63.
    fn key(self) -> u16
        ensures { result ≡ width.key_of (number self) };

    // The total of a cell: bits 0 to 15, saturated exactly where they are 65,535; or bits 0 to 31, with the flag, whether
    // it is saturated, in bit 32.
    fn total(self) -> Total
        ensures { result ≡ width.total_in (number self) };

    // The cell of a key and a total. Of an amount above the ceiling a word has the lowest bits. A word without a flag
    // keeps the amount alone, which says whether a total of its width is saturated.
    // By fields: a tombstone is packed here too, whose key no live cell has.
    fn pack_cell(key: u16, total: Total) -> Self
        ensures fits { width.is_total total ≡ true → number result ≡ width.cell_word key total }
        ensures roomy { total.amount ≤ width.ceiling → number result ≡ width.cell_word key total }
        ensures every { number result ≡ width.cell_word key (truncated width total) };

    // The answer of a code, in the bits from 16 or 33 on, and a total, which lies and is truncated as in a cell.
    // By number, since a word is packed here and not an answer, which is `answer`.
    fn pack_answer(code: u8, total: Total) -> Self
        ensures fits { width.is_total total ≡ true → number result ≡ width.packed_answer code total }
        ensures every { number result ≡ width.packed_answer code (truncated width total) };

    // Whether a table may start with this cell: the word 0, the tombstone (key 65,535 with total 0), or a live key, 1 to
    // 65,534, with a total of the width and no other bits.
    fn is_cell(self) -> bool
        ensures { result ≡ width.cell_allowed (number self) };

    // Whether a total is one of the width. Without a flag: an amount up to 65,535, saturated exactly there. With one: any
    // saturated amount, and any true one below 4,294,967,295.
    fn is_total(total: Total) -> bool
        ensures { result ≡ width.is_total total };

    // An operation has 64 bits in both widths. Its kind has eight bits, 32 to 39 or 49 to 56.
    // A number, since a word may have any there.
    fn row_kind(row: u64) -> u8
        ensures { result ≡ width.kind_bits row };

    // What lies above the kind, from bit 40 or 57 on: 0 in an operation that a run takes.
    fn above_kind(row: u64) -> u32
        ensures { result ≡ cond flagged (wide_bits_above_kind row) (bits_above_kind row) };

    // Its key: bits 16 to 31 or 33 to 48.
    fn row_key(row: u64) -> u16
        ensures { result ≡ width.operation_key row };

    // Its amount: the lowest bits, as the total of a cell.
    fn row_amount(row: u64) -> Total
        ensures { result ≡ width.amount_in row };

    // The operation of a kind's number, a key and an amount, which is truncated as the total of a cell.
    // By number, since a file may have any there; and by fields, since no `Operation` has such a kind.
    fn pack_row(kind: u8, key: u16, amount: Total) -> u64
        ensures roomy { amount.amount ≤ width.ceiling → result ≡ width.operation_word kind key amount }
        ensures every { result ≡ width.operation_word kind key (truncated width amount) };

    // In a file: the letters of the table's mark, TB or TW, which tell the two widths' files apart.
    fn table_mark() -> [u8; 2]
        ensures { result ≡ (layout_of flagged).table_letters };

    // How many bytes a total has in a file: 2, or 5 with its flag.
    fn total_bytes() -> usize
        ensures { result ≡ (layout_of flagged).total_size };

    // The total that some bytes of a file begin with: its flag, if the width has one, in a byte, 0 or 1, and then the
    // amount, the high byte first. None where the flag's byte is another. Bytes past the end are 0.
    fn read_total(bytes: &[u8]) -> Option<Total>
        ensures { ReadsTotal flagged bytes.now result };

    // The same where the bytes are known to be a total's; where they are not, it is not saturated.
    // Apart from `read_total`, which may refuse.
    fn file_total(bytes: &[u8]) -> Total
        ensures { (result ≡ (layout_of flagged).total_at bytes.now 0) × (result.amount ≤ (width_of flagged).ceiling) };

    // Whether totals have a flag.
    fn is_flagged() -> bool
        ensures { result ≡ flagged };

    // Whether it is the word 0.
    // Required, as zero, is_tombstone and answer_total are: a body here would need what equal words have for numbers.
    fn is_empty(self) -> bool
        ensures { result ≡ eqb (number self) 0 };

    // Whether it is the word of a removed room: key 65,535 with total 0, and nothing else.
    fn is_tombstone(self) -> bool
        ensures { result ≡ eqb (number self) (encode width Cell.Tombstone) };

    // The code of an answer: all bits from 16 or 33 on.
    // A number, since a word may have any there.
    fn code(self) -> u32
        ensures { result ≡ width.answer_code (number self) };

    // Its total: the lowest bits, as in a cell.
    fn answer_total(self) -> Total
        ensures { result ≡ width.answer_total (number self) };

    // The cell that a word is, by its key: 0 empty, 65,535 a tombstone, any other live.
    #[tactic(auto, unfolding(semantics::specs::Words::decode, semantics::specs::Words::cell_from, semantics::specs::Words::is_live_key))]
    fn decode(self) -> Cell<Total>
        ensures { result ≡ decode width (number self) }
    {
        match self.key() {
            0 => Cell::Empty,
            65535 => Cell::Tombstone,
            key => Cell::Live(key, self.total()),
        }
    }

    // The word of a cell.
    #[tactic(auto, unfolding(semantics::specs::Words::encode))]
    fn encode(cell: Cell<Total>) -> Self
        ensures fits { FitsCell width cell → number result ≡ encode width cell }
        ensures every { number result ≡ encode width (truncated_cell width cell) }
    {
        match cell {
            Cell::Empty => Self::zero(),
            Cell::Tombstone => Self::pack_cell(65535, NOTHING),
            Cell::Live(key, total) => Self::pack_cell(key, total),
        }
    }

    // The word of an answer: its code, 1 to 9, and the total that it carries, or 0.
    #[tactic(auto, unfolding(semantics::specs::Words::answer_word))]
    fn answer(answer: Answer<Total>) -> Self
        ensures fits { FitsAnswer width answer → number result ≡ answer_word width (some answer) }
        ensures every { number result ≡ width.packed_answer (code_of answer) (truncated width (carried (total_of answer))) }
    {
        Self::pack_answer(answer.code(), answer.total())
    }

    // The operation of a row. A number that is no kind's is taken for the last one, and refused by `is_row`.
    #[tactic(auto, unfolding(semantics::specs::Words::decode_operation, semantics::specs::Words::kind_of, semantics::specs::Words::is_kind))]
    fn operation(row: u64) -> Operation<Total>
        ensures { result ≡ decode_operation width row }
    {
        Operation {
            kind: Kind::try_from(Self::row_kind(row)).unwrap_or(Kind::Remove),
            key: Self::row_key(row),
            amount: Self::row_amount(row),
        }
    }

    // Whether an operation is one that a run takes: nothing above its kind, a live key, an amount that is a total of the
    // width, and a kind that may have it.
    fn is_row(row: u64) -> bool
        ensures { result ≡ width.operation_allowed row }
    {
        let amount = Self::row_amount(row);
        Self::is_total(amount)
            && fields_allowed(
                Self::above_kind(row),
                Self::row_kind(row),
                Self::row_key(row),
                amount == NOTHING,
            )
    }

    // What the rules ask of a width.
    ghost packing: { Packing width };

    // A width is one of two, by its flag.
    ghost of_flag: { width ≡ width_of flagged };
}
