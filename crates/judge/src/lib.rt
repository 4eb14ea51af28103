// Why a call of the run is turned away, at any width: each condition is a check, and a call passes them in the order
// of the table of refusals: the slices, then the words and the entries, then the whole table. Each is a search along
// the cells, the operations or the schedule, whose place is the first index that meets it. A table is looked at four
// times at most.
#![tactic(auto)]

ghost use Rattle.std.specs.Prelude.{◌≡◌, true, not, ◌&&◌, ◌+◌, ◌-◌, ◌/◌, ◌%◌, ◌<◌, ◌≤◌, [], ◌∷◌, leb, eqb, ltb, length, get_or, set, map};
ghost use Rattle.semantics.specs.Basics.{first_below};
ghost use Rattle.semantics.specs.Refusals.{slices_conditions, run_conditions};
ghost use Rattle.semantics.specs.Words.{size_allowed, is_live_key, home_in};
ghost use Rattle.semantics.specs.Run.{refused_outcome};
ghost use Rattle.semantics.specs.Sets.{is_in, including};
ghost use Rattle.semantics.specs.Keys.{is_unreachable_key};
ghost use Rattle.judge.specs.Judged.{number_of, place_of, Judges, keys_of, called, bad_word, bad_row, bad_name, repeated, cut_off};

use semantics::{MOST_ENTRIES, MOST_OPERATIONS, Outcome};
use word::{Word, is_live_key};

// Why a call is turned away, and where: in which cell, operation or entry.
// Number and place are its own, and of no trait: no function is generic over the enums of reasons.
#[derive(Clone, Copy)]
pub enum Reason {
    Size,
    TooMany,
    TooShort,
    Cell(usize),
    Row(usize),
    Entry(usize),
    Repeated(usize),
    CutOff(usize),
}

impl Reason {
    // The number of its row in the table of refusals.
    pub fn number(self) -> u32
        ensures { result ≡ number_of self }
    {
        match self {
            Reason::Size => 1,
            Reason::TooMany => 2,
            Reason::TooShort => 3,
            Reason::Cell(_) => 4,
            Reason::Row(_) => 5,
            Reason::Entry(_) => 6,
            Reason::Repeated(_) => 7,
            Reason::CutOff(_) => 8,
        }
    }

    // Its place, 0 where it has none.
    pub fn place(self) -> usize
        ensures { result ≡ place_of self }
    {
        match self {
            Reason::Size | Reason::TooMany | Reason::TooShort => 0,
            Reason::Cell(i)
            | Reason::Row(i)
            | Reason::Entry(i)
            | Reason::Repeated(i)
            | Reason::CutOff(i) => i,
        }
    }
}

// What a run of a call that is turned away returns: number and place of the reason, and no count.
impl From<Reason> for Outcome {
    ghost from_gives = { λ r o. o ≡ refused_outcome (number_of r) (place_of r) };

    fn from(reason: Reason) -> Outcome {
        Outcome {
            number: reason.number(),
            place: reason.place(),
            done: 0,
            lost: 0,
            idle: 0,
        }
    }
}

// 1, the size of the table; 2, too many operations or entries; 3, too short a slice for the answers or the log, of
// which only the length counts.
// The limits are asked here and not shared with the reader, which turns slices away that are too short, by 3.
#[tactic(auto, unfolding(semantics::specs::Refusals::first_met, semantics::specs::Refusals::size_not_allowed, semantics::specs::Refusals::too_many, semantics::specs::Refusals::too_short))]
fn check_slices<W: Word>(
    cells: &[W],
    operations: &[u64],
    schedule: &[u8],
    answers: usize,
    log: usize,
) -> Result<(), Reason>
    ensures { Judges result (slices_conditions (called W.number cells.now operations.now schedule.now answers log)) }
{
    if !hash::size_allowed(cells.len()) {
        return Err(Reason::Size);
    }
    if operations.len() > MOST_OPERATIONS || schedule.len() > MOST_ENTRIES {
        return Err(Reason::TooMany);
    }
    if answers < operations.len() || log < operations.len() {
        return Err(Reason::TooShort);
    }
    Ok(())
}

// 4: a word that no cell may start with.
// This and the two below are a line each: one function of them would be given condition and reason as well.
#[tactic(auto, using(crate::proofs::Found::searching))]
fn check_cells<W: Word>(cells: &[W]) -> Result<(), Reason>
    ensures { Judges result (bad_word W.width (map W.number cells.now) ∷ []) }
{
    for (i, cell) in cells.iter().enumerate() {
        if !cell.is_cell() {
            return Err(Reason::Cell(i));
        }
    }
    Ok(())
}

// 5: a word that is no operation.
#[tactic(auto, using(crate::proofs::Found::searching))]
fn check_rows<W: Word>(operations: &[u64]) -> Result<(), Reason>
    ensures { Judges result (bad_row W.width operations.now ∷ []) }
{
    for (i, row) in operations.iter().enumerate() {
        if !W::is_row(*row) {
            return Err(Reason::Row(i));
        }
    }
    Ok(())
}

// 6: an entry names an operation, so it is below their number.
#[tactic(auto, using(crate::proofs::Found::searching))]
fn check_entries(schedule: &[u8], rows: usize) -> Result<(), Reason>
    ensures { Judges result (bad_name rows schedule.now ∷ []) }
{
    for (i, entry) in schedule.iter().enumerate() {
        if *entry as usize >= rows {
            return Err(Reason::Entry(i));
        }
    }
    Ok(())
}

// A set of keys, a bit for each of the 65,536: key k is place k % 64 of word k / 64. A key is added, and it is said
// whether it was in the set before: then its word is as it was. (There is no heap for a set of another kind.)
#[tactic(auto, using(crate::proofs::Seen::same_place))]
fn add_key(keys: &mut [u64; 1024], key: u16) -> bool
    ensures was { result ≡ is_in (get_or keys.old (key / 64) 0) (key % 64) }
    ensures now { keys.new ≡ set keys.old (key / 64) (including (get_or keys.old (key / 64) 0) (key % 64)) }
{
    let group = (key / 64) as usize;
    let before = keys[group];
    let after = bitset::with(before, (key % 64) as u8);
    keys[group] = after;
    after == before
}

// 7: a live key that stands in a lower cell, too. Tombstones may repeat, so their key is neither kept nor looked for.
// Each cell is looked at once.
#[tactic(auto, using(crate::proofs::Found::searching))]
fn check_repeated<W: Word>(cells: &[W]) -> Result<(), Reason>
    ensures { Judges result (repeated (keys_of W.width W.number cells.now) ∷ []) }
{
    let mut seen = [0u64; 1024];
    for (i, cell) in cells.iter().enumerate() {
        let key = cell.key();
        if is_live_key(key) && add_key(&mut seen, key) {
            return Err(Reason::Repeated(i));
        }
    }
    Ok(())
}

// How many cells lie behind the last empty one, or all: they are the filled cells directly before cell 0, since the
// table goes round.
// Counted from the end, since the count is what is answered; all stands for none empty.
#[tactic(auto, using(crate::proofs::Found::searching))]
fn filled_at_end<W: Word>(cells: &[W]) -> usize
    ensures { result ≡ (let keys = keys_of W.width W.number cells.now in first_below (length keys) (λ d. eqb (get_or keys (length keys - (d + 1)) 0) 0)) }
{
    for d in 0..cells.len() {
        if cells[cells.len() - (d + 1)].key() == 0 {
            return d;
        }
    }
    cells.len()
}

// Whether the key of cell i, of c cells, is live with its home before the start of the filled cells directly before i,
// so that an empty cell is between. Cells are counted on from c: a cell up to i by c more than its number, and one past
// i, from which a search comes round the end to i, by its number. So counted, start is the first of those filled cells.
// Few homes lie before it, so whether the key is live is asked last.
#[tactic(auto, using(crate::proofs::Filled::cutting))]
fn is_cut_off(key: u16, i: usize, c: usize, start: usize) -> bool
    requires size { size_allowed c ≡ true }
    requires here { i < c }
    requires low { start ≤ i + c }
    ensures { result ≡ (is_live_key key && ltb (i + c - start) ((i + c - home_in c key) % c)) }
{
    let home = hash::home(key, c as u32) as usize;
    let counted = if home <= i { home + c } else { home };
    counted < start && is_live_key(key)
}

// 8: a live key that an empty cell cuts off from its home. The start of the filled cells directly before a cell is
// carried along, from cell 0 on, so that a cell is looked at twice at most. In a table without an empty cell no key is
// cut off. (Within its caller, whose loops that keeps short: a wide run of an empty table costs 3 % more without.)
#[tactic(auto, using(crate::proofs::Found::searching))]
#[inline(always)]
fn check_cut_off<W: Word>(cells: &[W]) -> Result<(), Reason>
    requires { size_allowed (length cells.now) ≡ true }
    ensures { Judges result (cut_off (keys_of W.width W.number cells.now) ∷ []) }
{
    let c = cells.len();
    let filled = filled_at_end(cells);
    if filled == c {
        return Ok(());
    }
    let mut start = c - filled;
    for (i, cell) in cells.iter().enumerate() {
        let key = cell.key();
        if key == 0 {
            start = i + c + 1;
        } else if is_cut_off(key, i, c, start) {
            return Err(Reason::CutOff(i));
        }
    }
    Ok(())
}

// Why a run of this call is turned away, if it is: the checks in the order of the table. Before those of the whole
// table comes the one of its size: only where that is allowed is the home of every key a cell of it.
pub fn check<W: Word>(
    cells: &[W],
    operations: &[u64],
    schedule: &[u8],
    answers: usize,
    log: usize,
) -> Result<(), Reason>
    ensures { Judges result (run_conditions W.width (called W.number cells.now operations.now schedule.now answers log)) }
{
    check_slices(cells, operations, schedule, answers, log)?;
    check_cells(cells)?;
    check_rows::<W>(operations)?;
    check_entries(schedule, operations.len())?;
    check_repeated(cells)?;
    check_cut_off(cells)
}
