// What is offered of the wide table under names of C: its run and its reader, each the function that it calls. They are
// a library of their own, beside room_table. A library is compiled as a whole, and one for both widths would hold
// the other's run and reader for each caller.
#![tactic(auto)]

ghost use Rattle.std.specs.Prelude.{◌≡◌};
ghost use Rattle.semantics.specs.Wide.{wide_width};
ghost use Rattle.semantics.specs.Run.{run_result};
ghost use Rattle.semantics.specs.RunFile.{wide_file, reading};

use semantics::{Loaded, Outcome};

// A whole run.
#[unsafe(no_mangle)]
pub extern "C" fn room_run_wide(
    cells: &mut [u64],
    operations: &[u64],
    schedule: &[u8],
    answers: &mut [u64],
    log: &mut [u8],
) -> Outcome
    ensures { run_result wide_width cells.old operations.now schedule.now answers.old log.old
        ≡ record { outcome = result; cells = cells.new; answers = answers.new; log = log.new } }
{
    run::run_wide(cells, operations, schedule, answers, log)
}

// The reader of wide run files.
#[unsafe(no_mangle)]
pub extern "C" fn room_load_wide(
    file: &[u8],
    cells: &mut [u64],
    operations: &mut [u64],
    schedule: &mut [u8],
) -> Loaded
    ensures { reading wide_file file.now cells.old operations.old schedule.old
        ≡ record { loaded = result; cells = cells.new; operations = operations.new; schedule = schedule.new } }
{
    runfile::load_wide(file, cells, operations, schedule)
}
