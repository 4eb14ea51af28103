// The words of the wide width. A total has thirty-two bits below a flag, in a cell, an operation and an answer alike, so
// it is taken out and packed once. Above it a cell has fifteen bits that are 0 and its key, an operation its key and its
// kind, and an answer its code.
ghost use Rattle.std.specs.Prelude.{◌≡◌, refl, true, ◌||◌, ◌&&◌, ◌*◌, ◌/◌, ◌^◌, ◌<◌, eqb};
ghost use Rattle.semantics.specs.Words.{is_live_key};
ghost use Rattle.semantics.specs.Wide.{wide_width, flagged_in, flagged_bits, is_wide_total, wide_key_of};
ghost use Rattle.semantics.proofs.Wide.{wide-packing};

use crate::Word;
use crate::bytes::{byte_at, four_at};
use semantics::Total;

// The word of a tombstone: key 65,535 with total 0.
const TOMBSTONE: u64 = 65535 << 48;

// The total of a cell or of an answer, and the amount of an operation: bits 0 to 31, and the flag in bit 32.
// No From: which total some bits are hangs on the width.
fn wide_total(w: u64) -> Total
    ensures { result ≡ flagged_in w }
{
    Total {
        amount: (w & 0xffffffff) as u32,
        saturated: (w >> 32) & 1 == 1,
    }
}

// What a total takes of a word: thirty-three bits.
// By shifts, the form that the specification names for fields.
fn flagged_bits(t: Total) -> u64
    ensures { (result ≡ flagged_bits t) × (result < 2 ^ 33) }
{
    ((t.saturated as u64) << 32) | (t.amount as u64)
}

// Whether some bits of a word are a total with its flag and no more: any total but the largest without the flag. Nearly
// every total is below that one, so this is asked first, for speed.
#[tactic(auto, using(crate::proofs::Fields::totals))]
fn is_flagged_total(bits: u64) -> bool
    ensures { result ≡ (eqb (bits / 2 ^ 33) 0 && is_wide_total (flagged_in bits)) }
{
    if bits < 4294967295 {
        return true;
    }
    if bits < 4294967296 {
        return false;
    }
    bits < 8589934592
}

// Whether a cell has a live key or is the tombstone. This is asked of the whole word, which is one test, for speed: the
// words of the live keys are those between the words of key 0 and the tombstone.
#[tactic(auto, using(crate::proofs::Fields::keys_above))]
fn is_live_or_tombstone(w: u64) -> bool
    ensures { result ≡ (is_live_key (wide_key_of w) || eqb w (65535 * 2 ^ 48)) }
{
    0xffffffffffff < w && w <= TOMBSTONE
}

impl Word for u64 {
    ghost width = { wide_width };

    ghost number = { λ w. w };

    ghost flagged = { true };

    fn ceiling() -> u32 {
        4294967295
    }

    fn zero() -> u64 {
        0
    }

    fn key(self) -> u16 {
        (self >> 48) as u16
    }

    fn total(self) -> Total {
        wide_total(self)
    }

    fn pack_cell(key: u16, total: Total) -> u64 {
        ((key as u64) << 48) | flagged_bits(total)
    }

    fn pack_answer(code: u8, total: Total) -> u64 {
        ((code as u64) << 33) | flagged_bits(total)
    }

    // All that is below the key is taken out at once; the tombstone has 0 there, which is a total.
    #[tactic(auto, using(crate::proofs::Fields::other_words))]
    fn is_cell(self) -> bool {
        if is_live_or_tombstone(self) {
            return is_flagged_total(self & 0xffffffffffff);
        }
        self.is_empty()
    }

    #[tactic(auto, unfolding(semantics::specs::Wide::is_wide_total))]
    fn is_total(total: Total) -> bool {
        total.saturated || total.amount < Self::ceiling()
    }

    fn row_kind(row: u64) -> u8 {
        ((row >> 49) & 0xff) as u8
    }

    fn above_kind(row: u64) -> u32 {
        (row >> 57) as u32
    }

    fn row_key(row: u64) -> u16 {
        ((row >> 33) & 0xffff) as u16
    }

    fn row_amount(row: u64) -> Total {
        wide_total(row)
    }

    fn pack_row(kind: u8, key: u16, amount: Total) -> u64 {
        ((kind as u64) << 49) | (((key as u64) << 33) | flagged_bits(amount))
    }

    #[tactic(auto, unfolding(semantics::specs::Text::text))]
    fn table_mark() -> [u8; 2] {
        *b"TW"
    }

    fn total_bytes() -> usize {
        5
    }

    fn read_total(bytes: &[u8]) -> Option<Total> {
        let flag = byte_at(bytes, 0);
        if flag > 1 {
            return None;
        }
        Some(Total {
            amount: four_at(bytes, 1),
            saturated: flag == 1,
        })
    }

    fn file_total(bytes: &[u8]) -> Total {
        Total {
            amount: four_at(bytes, 1),
            saturated: byte_at(bytes, 0) == 1,
        }
    }

    fn is_flagged() -> bool {
        true
    }

    fn is_empty(self) -> bool {
        self == 0
    }

    #[tactic(auto, unfolding(semantics::specs::Words::encode))]
    fn is_tombstone(self) -> bool {
        self == TOMBSTONE
    }

    fn code(self) -> u32 {
        (self >> 33) as u32
    }

    fn answer_total(self) -> Total {
        self.total()
    }

    ghost packing = { wide-packing };

    ghost of_flag = { refl };
}
