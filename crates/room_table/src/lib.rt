// What is offered of the narrow table under names of C. room_home and room_sum are the two functions that
// the load module calls, with numbers only; include/room_table.h declares them. The reader and the run are for
// the tests and the bench, which call them from Rust: a slice is a pointer and a length, and what is returned
// is a struct of C's layout. Of these two nothing is decided here: each is the function that it calls, with the
// equation that function promises.
#![tactic(auto)]

ghost use Rattle.std.specs.Prelude.{◌≡◌};
ghost use Rattle.semantics.specs.Narrow.{narrow_width, room_home, room_sum};
ghost use Rattle.semantics.specs.Run.{run_result};
ghost use Rattle.semantics.specs.RunFile.{narrow_file, reading};

use hash::{home, size_allowed};
use semantics::{Loaded, Outcome};
use word::narrow_total;

// The home of a key in c cells, or 65,535 where c or the key is not allowed.
// Both are judged first, so the key is 1 to 65,534 and has sixteen bits.
// A number where there is none: so C is told it.
#[tactic(auto, unfolding(semantics::specs::Narrow::room_home, semantics::specs::Words::is_live_key))]
#[unsafe(no_mangle)]
pub extern "C" fn room_home(key: u32, c: u32) -> u32
    ensures { result ≡ room_home key c }
{
    if size_allowed(c as usize) && 0 < key && key < 65535 {
        home(key as u16, c)
    } else {
        65535
    }
}

// The sum of two totals, or 65,535, which is saturated (the specification's word: pinned), where it is larger;
// and 65,536 more where the first was true and the sum is saturated.
#[tactic(auto, unfolding(semantics::specs::Narrow::room_sum, semantics::specs::Totals::plus_at, semantics::specs::Totals::held_at))]
#[unsafe(no_mangle)]
pub extern "C" fn room_sum(a: u16, b: u16) -> u32
    ensures { result ≡ room_sum a b }
{
    let first = narrow_total(a);
    let second = narrow_total(b);
    let sum = first.plus(second, 65535).amount;
    if first.is_capped_by(second, 65535) {
        sum + 65536
    } else {
        sum
    }
}

// A whole run.
#[unsafe(no_mangle)]
pub extern "C" fn room_run(
    cells: &mut [u32],
    operations: &[u64],
    schedule: &[u8],
    answers: &mut [u32],
    log: &mut [u8],
) -> Outcome
    ensures { run_result narrow_width cells.old operations.now schedule.now answers.old log.old
        ≡ record { outcome = result; cells = cells.new; answers = answers.new; log = log.new } }
{
    run::run(cells, operations, schedule, answers, log)
}

// The reader of run files.
#[unsafe(no_mangle)]
pub extern "C" fn room_load(
    file: &[u8],
    cells: &mut [u32],
    operations: &mut [u64],
    schedule: &mut [u8],
) -> Loaded
    ensures { reading narrow_file file.now cells.old operations.old schedule.old
        ≡ record { loaded = result; cells = cells.new; operations = operations.new; schedule = schedule.new } }
{
    runfile::load(file, cells, operations, schedule)
}
