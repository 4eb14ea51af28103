// The step rules as methods of the values that they speak of, under any ceiling of totals and in any number of
// cells: what a kind of operation does to a total, and what a read or a compare-and-swap does at the one cell
// that it reads. Each promises, of every value, what a definition of specs/ says: of Step, Totals, Cells or Rules.
ghost use Rattle.std.specs.Prelude.{◌≡◌, ℕ, true, Some};
ghost use Rattle.semantics.specs.Totals.{plus_at, caps_at};
ghost use Rattle.semantics.specs.Cells.{find, insert, update, add, remove, code_of, total_of};
ghost use Rattle.semantics.specs.Step.{makes, effect, sight, exhausted, held_cell, fate_cell, step, reading, holding};
ghost use Rattle.semantics.specs.Words.{setting_at, carried, is_kind, kind_of};
ghost use Rattle.semantics.specs.Rules.{Decodes, effect_of, setting_in};

use crate::Total;
use crate::values::{
    Answer, Cell, Effect, Fate, Held, Kind, Operation, Pending, Sight, Stepped, Turn,
};

// What the rules need of a table: where its totals are held, and how many cells it has.
#[derive(Clone, Copy)]
pub struct Bounds {
    pub ceiling: u32,
    pub cells: usize,
}

// The total of an answer that carries none, and of a tombstone.
pub const NOTHING: Total = Total {
    amount: 0,
    saturated: false,
};

// A number that is no kind's.
#[derive(Clone, Copy)]
pub struct UnknownKind(pub u8);

impl Total {
    // The sum of two totals, held at a ceiling: saturated if it reaches the ceiling, or if one of the two was so.
    #[tactic(auto, unfolding(crate::specs::Totals::plus_at, crate::specs::Totals::held_at))]
    pub fn plus(self, other: Self, ceiling: u32) -> Self
        ensures { result ≡ plus_at ceiling self other }
    {
        let sum = self.amount as u64 + other.amount as u64;
        Total {
            amount: sum.min(ceiling as u64) as u32,
            saturated: self.saturated || other.saturated || sum >= ceiling as u64,
        }
    }

    // Whether an addition caps it: a true total becomes a saturated one. The other total is not asked, so that
    // 0 and a saturated one are capped, and the same two the other way round are not.
    #[tactic(auto, unfolding(crate::specs::Totals::caps_at, crate::specs::Totals::caps))]
    pub fn is_capped_by(self, other: Self, ceiling: u32) -> bool
        ensures { result ≡ caps_at ceiling self other }
    {
        !self.saturated && self.plus(other, ceiling).saturated
    }
}

impl TryFrom<u8> for Kind {
    type Error = UnknownKind;

    ghost try_from_gives = { Decodes };

    // The kind of a number: 1 is find, 2 insert, 3 update, 4 add, 5 remove. Any other is handed back.
    #[tactic(auto, unfolding(crate::specs::Words::is_kind, crate::specs::Words::kind_of))]
    fn try_from(number: u8) -> Result<Self, UnknownKind> {
        match number {
            1 => Ok(Kind::Find),
            2 => Ok(Kind::Insert),
            3 => Ok(Kind::Update),
            4 => Ok(Kind::Add),
            5 => Ok(Kind::Remove),
            _ => Err(UnknownKind(number)),
        }
    }
}

impl Kind {
    // Whether it makes a missing key.
    #[tactic(auto, unfolding(crate::specs::Step::makes))]
    fn makes(self) -> bool
        ensures { result ≡ makes self }
    {
        match self {
            Kind::Insert | Kind::Add => true,
            Kind::Find | Kind::Update | Kind::Remove => false,
        }
    }

    // What it answers once every cell has been passed, and the key was in none.
    #[tactic(auto, unfolding(crate::specs::Step::exhausted))]
    fn exhausted(self) -> Answer<Total>
        ensures { (ceiling c : ℕ) → result ≡ exhausted (setting_at ceiling c) self }
    {
        if self.makes() {
            Answer::Full
        } else {
            Answer::Absent
        }
    }
}

impl Answer<Total> {
    // The number that an answer has in a table's words, its code.
    #[tactic(auto, unfolding(crate::specs::Cells::code_of))]
    pub fn code(self) -> u8
        ensures { result ≡ code_of self }
    {
        match self {
            Answer::Found(_) => 1,
            Answer::Inserted => 2,
            Answer::Present(_) => 3,
            Answer::Changed(_) => 4,
            Answer::Removed(_) => 5,
            Answer::Absent => 6,
            Answer::Full => 7,
            Answer::Capped(_) => 8,
            Answer::Retained(_) => 9,
        }
    }

    // The total that it carries, or 0.
    #[tactic(auto, unfolding(crate::specs::Cells::total_of, crate::specs::Words::carried))]
    pub fn total(self) -> Total
        ensures { result ≡ carried (total_of self) }
    {
        match self {
            Answer::Found(total)
            | Answer::Present(total)
            | Answer::Changed(total)
            | Answer::Removed(total)
            | Answer::Capped(total)
            | Answer::Retained(total) => total,
            Answer::Inserted | Answer::Absent | Answer::Full => NOTHING,
        }
    }
}

impl Cell<Total> {
    // What an operation of a key sees in it.
    #[tactic(auto, unfolding(crate::specs::Step::sight))]
    fn sight(self, key: u16) -> Sight<Total>
        ensures { result ≡ sight key self }
    {
        match self {
            Cell::Empty => Sight::Free,
            Cell::Live(found, total) if found == key => Sight::Own(total),
            Cell::Live(_, _) | Cell::Tombstone => Sight::Other,
        }
    }
}

impl Held<Total> {
    // The held word, as a cell.
    #[tactic(auto, unfolding(crate::specs::Step::held_cell))]
    fn cell(self, key: u16) -> Cell<Total>
        ensures { (ceiling c : ℕ) → result ≡ held_cell (setting_at ceiling c) key self }
    {
        match self {
            Held::Vacant => Cell::Empty,
            Held::Mine(total) => Cell::Live(key, total),
        }
    }
}

impl Fate<Total> {
    // What becomes of the cell of a key with a total.
    #[tactic(auto, unfolding(crate::specs::Step::fate_cell))]
    fn cell(self, key: u16, total: Total) -> Cell<Total>
        ensures { (ceiling c : ℕ) → result ≡ fate_cell (setting_at ceiling c) key total self }
    {
        match self {
            Fate::Stays => Cell::Live(key, total),
            Fate::Ends => Cell::Tombstone,
            Fate::Becomes(new) => Cell::Live(key, new),
        }
    }
}

// What each kind does where its key has a total, and what it answers. A total that stays is answered at the read;
// any other fate is the work of a swap, which stores the new cell.
impl Effect<Total> {
    // A find.
    #[tactic(auto, unfolding(crate::specs::Step::effect))]
    fn found(total: Total) -> Self
        ensures { (ceiling c : ℕ) (amount : Total) → result ≡ effect (setting_at ceiling c) find total amount }
    {
        Effect {
            fate: Fate::Stays,
            answer: Answer::Found(total),
        }
    }

    // An insert: the key is there already.
    #[tactic(auto, unfolding(crate::specs::Step::effect))]
    fn present(total: Total) -> Self
        ensures { (ceiling c : ℕ) (amount : Total) → result ≡ effect (setting_at ceiling c) insert total amount }
    {
        Effect {
            fate: Fate::Stays,
            answer: Answer::Present(total),
        }
    }

    // An update: the amount takes the place of a true total, and a saturated one is retained.
    #[tactic(auto, unfolding(crate::specs::Step::effect, crate::specs::Step::updating))]
    fn updated(total: Total, amount: Total) -> Self
        ensures { (ceiling c : ℕ) → result ≡ effect (setting_at ceiling c) update total amount }
    {
        if total.saturated {
            Effect {
                fate: Fate::Stays,
                answer: Answer::Retained(total),
            }
        } else {
            Effect {
                fate: Fate::Becomes(amount),
                answer: Answer::Changed(total),
            }
        }
    }

    // An add: the total becomes the sum, and the answer says whether that capped it.
    #[tactic(auto, unfolding(crate::specs::Step::effect, crate::specs::Totals::caps_at))]
    fn added(total: Total, amount: Total, ceiling: u32) -> Self
        ensures { (c : ℕ) → result ≡ effect (setting_at ceiling c) add total amount }
    {
        Effect {
            fate: Fate::Becomes(total.plus(amount, ceiling)),
            answer: if total.is_capped_by(amount, ceiling) {
                Answer::Capped(total)
            } else {
                Answer::Changed(total)
            },
        }
    }

    // A remove.
    #[tactic(auto, unfolding(crate::specs::Step::effect))]
    fn removed(total: Total) -> Self
        ensures { (ceiling c : ℕ) (amount : Total) → result ≡ effect (setting_at ceiling c) remove total amount }
    {
        Effect {
            fate: Fate::Ends,
            answer: Answer::Removed(total),
        }
    }

    // What an operation does whose kind has this number, and none where it is no kind's: one match over the number
    // refuses the others, and chooses both what the read does and the new cell. No run goes by it, since a row's number
    // is read once, when its kind is made of it: Operation::effect then promises the same of that number. It is for
    // whoever has the number alone.
    #[tactic(auto, unfolding(crate::specs::Rules::effect_of, crate::specs::Words::is_kind, crate::specs::Words::kind_of))]
    pub fn by_number(kind: u8, total: Total, amount: Total, ceiling: u32) -> Option<Self>
        ensures { (c : ℕ) → result ≡ effect_of (setting_at ceiling c) kind total amount }
    {
        match kind {
            1 => Some(Effect::found(total)),
            2 => Some(Effect::present(total)),
            3 => Some(Effect::updated(total, amount)),
            4 => Some(Effect::added(total, amount, ceiling)),
            5 => Some(Effect::removed(total)),
            _ => None,
        }
    }
}

impl Operation<Total> {
    // What it does where its key has a total: one match chooses both what the read does and the new cell. It is the
    // match over the kind's number too, since the kind was made of that number, and of no other (Kind::try_from).
    #[tactic(auto, unfolding(crate::specs::Rules::effect_of))]
    fn effect(self, total: Total, ceiling: u32) -> Effect<Total>
        ensures does { (c : ℕ) → result ≡ effect (setting_at ceiling c) self.kind total self.amount }
        ensures numbered { (c n : ℕ) → is_kind n ≡ true → kind_of n ≡ self.kind → effect_of (setting_at ceiling c) n total self.amount ≡ Some result }
    {
        match self.kind {
            Kind::Find => Effect::found(total),
            Kind::Insert => Effect::present(total),
            Kind::Update => Effect::updated(total, self.amount),
            Kind::Add => Effect::added(total, self.amount, ceiling),
            Kind::Remove => Effect::removed(total),
        }
    }

    // A read of a cell, with some passed before it: the cell stays as it is, and this is how the operation turns.
    #[tactic(auto, unfolding(crate::specs::Step::step, crate::specs::Step::read, crate::specs::Step::read_own, crate::specs::Step::bounded))]
    pub fn read(self, bounds: Bounds, passed: usize, cell: Cell<Total>) -> Turn<Total>
        ensures { record { cell = cell; turn = result } ≡ step (setting_in bounds) self (reading passed) cell }
    {
        match cell.sight(self.key) {
            Sight::Own(total) => {
                let effect = self.effect(total, bounds.ceiling);
                match effect.fate {
                    Fate::Stays => Turn::Finishes(effect.answer),
                    Fate::Ends | Fate::Becomes(_) => Turn::Holds(Held::Mine(total)),
                }
            }
            Sight::Free if self.kind.makes() => Turn::Holds(Held::Vacant),
            Sight::Free => Turn::Finishes(Answer::Absent),
            Sight::Other if passed.checked_add(1) == Some(bounds.cells) => {
                Turn::Finishes(self.kind.exhausted())
            }
            Sight::Other => Turn::Passes,
        }
    }

    // A compare-and-swap: if the cell still equals the held word, the new cell is stored and the operation finishes.
    // Otherwise the swap is lost. It is the same in a table of any size, wherever the operation stands.
    #[tactic(auto, unfolding(crate::specs::Step::step, crate::specs::Step::swapped, crate::specs::Step::same_cell, crate::specs::Totals::same_total, crate::specs::Step::new_cell, crate::specs::Step::swap_answer))]
    pub fn swap(self, ceiling: u32, held: Held<Total>, cell: Cell<Total>) -> Stepped<Total>
        ensures { (c p : ℕ) → result ≡ step (setting_at ceiling c) self (holding p held) cell }
    {
        if cell != held.cell(self.key) {
            return Stepped {
                cell,
                turn: Turn::Loses,
            };
        }
        match held {
            Held::Vacant => Stepped {
                cell: Cell::Live(self.key, self.amount),
                turn: Turn::Finishes(Answer::Inserted),
            },
            Held::Mine(total) => {
                let effect = self.effect(total, ceiling);
                Stepped {
                    cell: effect.fate.cell(self.key, total),
                    turn: Turn::Finishes(effect.answer),
                }
            }
        }
    }

    // One step on the one cell that it reads, by where the operation stands. It is built into the loop over a schedule, also
    // where a program has that loop at both widths: with a call of it, the report of a run that loses many swaps takes 1.6
    // times the instructions.
    #[inline(always)]
    pub fn step(self, bounds: Bounds, pending: Pending<Total>, cell: Cell<Total>) -> Stepped<Total>
        ensures { result ≡ step (setting_in bounds) self pending cell }
    {
        match pending {
            Pending::Reading(passed) => Stepped {
                cell,
                turn: self.read(bounds, passed, cell),
            },
            Pending::Holding(_, held) => self.swap(bounds.ceiling, held, cell),
        }
    }
}
