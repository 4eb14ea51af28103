// Run files of either width: the reader. A file is judged whole before anything is written; then its records
// are stored one by one.
#![tactic(auto)]

ghost use Rattle.std.specs.Prelude.{◌≡◌, ◌+◌, ◌≤◌, length, map, replicate};
ghost use Rattle.io.specs.Counts.{IsPrefixLen};
ghost use Rattle.semantics.specs.Run.{over};
ghost use Rattle.semantics.specs.Records.{records};
ghost use Rattle.semantics.specs.RunFile.{layout_of, narrow_file, wide_file, run_file, start, reader_refusal, file_refusal, contents, accepted_reading, reading};
ghost use Rattle.semantics.proofs.Records.{judgement};
ghost use Rattle.semantics.specs.Response.{is_wide};
ghost use Rattle.runfile.specs.Faults.{refusal, number_of, place_of};
ghost use Rattle.runfile.specs.Stored.{held, kept, Storable};

pub mod record; // record.rt: one record, and why it is turned away

use record::{Fault, Record, opens, read_record, sound_record};
use semantics::{Loaded, MOST_BYTES, MOST_CELLS, MOST_ENTRIES, MOST_OPERATIONS, Position};
use word::Word;
use word::bytes::copy;

// Whether a file is of the wide width, by the mark of its table.
#[tactic(auto, unfolding(semantics::specs::Response::is_wide))]
pub fn is_wide(file: &[u8]) -> bool
    ensures { result ≡ is_wide file.now }
{
    opens(file, &u64::table_mark())
}

// Before the first record.
pub fn start() -> Position
    ensures { result ≡ start }
{
    Position {
        at: 0,
        part: 0,
        size: 0,
        lowest: 0,
        operations: 0,
        entries: 0,
    }
}

// Every record in turn, to the first that is turned away. (A loop: where a record begins is known when the one
// before it has been read. An iterator would carry position and refusal, and is no plainer.)
fn scan<W: Word>(file: &[u8]) -> Result<(), Fault>
    ensures { refusal result ≡ judgement (run_file (layout_of W.flagged)) file.now (records (run_file (layout_of W.flagged)) file.now start) }
{
    let mut position = start();
    loop {
        let (_, next) = read_record::<W>(file, position)?;
        if file.len() <= next.at {
            return Ok(());
        }
        position = next;
    }
}

// Why a file is turned away, whatever is to be done with it.
#[tactic(auto, using(crate::proofs::Refused::refusals))]
pub fn check_file<W: Word>(file: &[u8]) -> Result<(), Fault>
    ensures { refusal result ≡ file_refusal (layout_of W.flagged) file.now }
{
    if file.len() > MOST_BYTES {
        return Err(Fault::TooLong);
    }
    scan::<W>(file)
}

// Why a file is not read. (Its limits are asked here and not shared with the run: slices that are too short are 3,
// where the run turns away too many by 2.)
#[tactic(auto, using(crate::proofs::Refused::refusals))]
fn check<W: Word>(
    file: &[u8],
    cells: usize,
    operations: usize,
    schedule: usize,
) -> Result<(), Fault>
    ensures { refusal result ≡ reader_refusal (layout_of W.flagged) file.now cells operations schedule }
{
    if cells < MOST_CELLS || operations < MOST_OPERATIONS || schedule < MOST_ENTRIES {
        return Err(Fault::TooShort);
    }
    check_file::<W>(file)
}

// The first n cells are empty. (Not by fill, which asks that a copy of the word cannot fail: no law of a word
// says so.)
fn clear<W: Word>(cells: &mut [W], n: usize)
    requires { n ≤ length cells.old }
    ensures { map W.number cells.new ≡ over (replicate n 0) (map W.number cells.old) }
{
    for i in 0..n {
        cells[i] = W::zero();
    }
}

// Stores one record, of which the position says how many operations and entries stand already.
fn store<W: Word>(
    found: Record<'_>,
    position: Position,
    cells: &mut [W],
    operations: &mut [u64],
    schedule: &mut [u8],
)
    requires { Storable W.width position found (length cells.old) (length operations.old) (length schedule.old) }
    ensures { kept W.width position found.entry (held W.number cells.old operations.old schedule.old) ≡ held W.number cells.new operations.new schedule.new }
{
    match found {
        Record::Table(k) => clear(cells, 1 << (k as usize)),
        Record::Cell { at, key, total } => cells[at as usize] = W::pack_cell(key, total),
        Record::Operation { kind, key, amount } => {
            operations[position.operations] = W::pack_row(kind, key, amount);
        }
        Record::Schedule(entries) => {
            let first = position.entries;
            copy(&mut schedule[first..first + entries.len()], entries);
        }
    }
}

// What an accepted file held, by the position past its last record.
// No From: neither type is of this crate.
fn loaded(end: Position) -> Loaded
    ensures { result ≡ record { number = 0; place = 0; cells = end.size; operations = end.operations; entries = end.entries } }
{
    Loaded {
        number: 0,
        place: 0,
        cells: end.size,
        operations: end.operations,
        entries: end.entries,
    }
}

// Fills the slices with what an accepted file holds, and says how much that is. (A loop from record to record, as in
// scan.)
// Apart from scan: a closure for what is done with a record would take the slices.
fn fill<W: Word>(
    file: &[u8],
    cells: &mut [W],
    operations: &mut [u64],
    schedule: &mut [u8],
) -> Loaded
    requires { (reader_refusal (layout_of W.flagged) file.now (length (map W.number cells.old)) (length operations.old) (length schedule.old)).number ≡ 0 }
    ensures filled { accepted_reading (contents (layout_of W.flagged) file.now) (map W.number cells.old) operations.old schedule.old
        ≡ record { loaded = result; cells = map W.number cells.new; operations = operations.new; schedule = schedule.new } }
    ensures counted { IsPrefixLen result.cells (map W.number cells.new) × IsPrefixLen result.operations operations.new × IsPrefixLen result.entries schedule.new }
{
    let mut position = start();
    loop {
        let (found, next) = sound_record::<W>(file, position);
        store(found, position, cells, operations, schedule);
        position = next;
        if file.len() <= position.at {
            return loaded(position);
        }
    }
}

// What is told of a file that is turned away: why and where, and that nothing was read.
impl From<Fault> for Loaded {
    ghost from_gives = { λ f l. l ≡ record { number = number_of f; place = place_of f; cells = 0; operations = 0; entries = 0 } };

    fn from(fault: Fault) -> Loaded {
        Loaded {
            number: fault.number(),
            place: fault.place(),
            cells: 0,
            operations: 0,
            entries: 0,
        }
    }
}

// Reads a file of a width into lent slices for at least 4,096 cells, 64 operations and 16,384 entries, and
// says how many of each it wrote. A file that is turned away alters nothing. (Three slices and a struct of numbers:
// so C lends and is told.)
#[tactic(auto, using(crate::proofs::Refused::answered, crate::proofs::Scanned::positive))]
pub fn load_words<W: Word>(
    file: &[u8],
    cells: &mut [W],
    operations: &mut [u64],
    schedule: &mut [u8],
) -> Loaded
    ensures loaded { reading (layout_of W.flagged) file.now (map W.number cells.old) operations.old schedule.old
        ≡ record { loaded = result; cells = map W.number cells.new; operations = operations.new; schedule = schedule.new } }
    ensures counted { IsPrefixLen result.cells (map W.number cells.new) × IsPrefixLen result.operations operations.new × IsPrefixLen result.entries schedule.new }
{
    match check::<W>(file, cells.len(), operations.len(), schedule.len()) {
        Ok(()) => fill(file, cells, operations, schedule),
        Err(fault) => Loaded::from(fault),
    }
}

// Of narrow files, and of wide ones: two functions, for the two names of C, with load_words behind both.
pub fn load(file: &[u8], cells: &mut [u32], operations: &mut [u64], schedule: &mut [u8]) -> Loaded
    ensures result { reading narrow_file file.now cells.old operations.old schedule.old
        ≡ record { loaded = result; cells = cells.new; operations = operations.new; schedule = schedule.new } }
    ensures counted { IsPrefixLen result.cells cells.new × IsPrefixLen result.operations operations.new × IsPrefixLen result.entries schedule.new }
{
    load_words::<u32>(file, cells, operations, schedule)
}

pub fn load_wide(
    file: &[u8],
    cells: &mut [u64],
    operations: &mut [u64],
    schedule: &mut [u8],
) -> Loaded
    ensures result { reading wide_file file.now cells.old operations.old schedule.old
        ≡ record { loaded = result; cells = cells.new; operations = operations.new; schedule = schedule.new } }
    ensures counted { IsPrefixLen result.cells cells.new × IsPrefixLen result.operations operations.new × IsPrefixLen result.entries schedule.new }
{
    load_words::<u64>(file, cells, operations, schedule)
}
