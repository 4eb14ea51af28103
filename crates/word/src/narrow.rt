// The words of the narrow width: a cell has its key above its total, an answer its code, and an operation a kind in
// eight bits above what lies as in a cell. A total has sixteen bits and no flag: it is saturated where it is 65,535.
ghost use Rattle.std.specs.Prelude.{◌≡◌, ◌<◌, refl, false};
ghost use Rattle.semantics.specs.Narrow.{narrow, narrow_width};
ghost use Rattle.semantics.proofs.Narrow.{narrow-packing};

use crate::Word;
use crate::allowed::is_live_key;
use crate::bytes::pair_at;
use semantics::Total;

// The word of a tombstone: key 65,535 with total 0.
const TOMBSTONE: u32 = 65535 << 16;

// The total that sixteen bits are: 65,535 is saturated.
// No From: which total some bits are hangs on the width.
#[tactic(auto, unfolding(semantics::specs::Narrow::narrow))]
pub fn narrow_total(bits: u16) -> Total
    ensures { (result ≡ narrow bits) × (result.amount < 65536) }
{
    Total {
        amount: bits as u32,
        saturated: bits == 65535,
    }
}

impl Word for u32 {
    ghost width = { narrow_width };

    ghost number = { λ w. w };

    ghost flagged = { false };

    fn ceiling() -> u32 {
        65535
    }

    fn zero() -> u32 {
        0
    }

    fn key(self) -> u16 {
        (self >> 16) as u16
    }

    fn total(self) -> Total {
        narrow_total((self & 0xffff) as u16)
    }

    #[tactic(auto, unfolding(semantics::specs::Narrow::is_narrow_total))]
    fn pack_cell(key: u16, total: Total) -> u32 {
        ((key as u32) << 16) | (total.amount & 0xffff)
    }

    #[tactic(auto, unfolding(semantics::specs::Narrow::is_narrow_total))]
    fn pack_answer(code: u8, total: Total) -> u32 {
        ((code as u32) << 16) | (total.amount & 0xffff)
    }

    #[tactic(auto, unfolding(semantics::specs::Narrow::cell_allowed, semantics::specs::Narrow::tombstone_word, semantics::specs::Words::encode))]
    fn is_cell(self) -> bool {
        is_live_key(self.key()) || self.is_empty() || self.is_tombstone()
    }

    #[tactic(auto, unfolding(semantics::specs::Narrow::is_narrow_total))]
    fn is_total(total: Total) -> bool {
        total.amount <= Self::ceiling() && total.saturated == (total.amount == Self::ceiling())
    }

    fn row_kind(row: u64) -> u8 {
        ((row >> 32) & 0xff) as u8
    }

    fn above_kind(row: u64) -> u32 {
        (row >> 40) as u32
    }

    fn row_key(row: u64) -> u16 {
        ((row >> 16) & 0xffff) as u16
    }

    fn row_amount(row: u64) -> Total {
        narrow_total((row & 0xffff) as u16)
    }

    fn pack_row(kind: u8, key: u16, amount: Total) -> u64 {
        ((kind as u64) << 32) | (((key as u64) << 16) | ((amount.amount & 0xffff) as u64))
    }

    #[tactic(auto, unfolding(semantics::specs::Text::text))]
    fn table_mark() -> [u8; 2] {
        *b"TB"
    }

    fn total_bytes() -> usize {
        2
    }

    fn read_total(bytes: &[u8]) -> Option<Total> {
        Some(narrow_total(pair_at(bytes, 0)))
    }

    fn file_total(bytes: &[u8]) -> Total {
        narrow_total(pair_at(bytes, 0))
    }

    fn is_flagged() -> bool {
        false
    }

    fn is_empty(self) -> bool {
        self == 0
    }

    #[tactic(auto, unfolding(semantics::specs::Words::encode))]
    fn is_tombstone(self) -> bool {
        self == TOMBSTONE
    }

    fn code(self) -> u32 {
        self >> 16
    }

    fn answer_total(self) -> Total {
        self.total()
    }

    ghost packing = { narrow-packing };

    ghost of_flag = { refl };
}
