// Up: the wide file of a narrow one, under a name of C, for the tests and the bench. Nothing is decided here: it is
// the function that it calls. Each direction has a library, so that a caller links only what it calls.
#![tactic(auto)]

ghost use Rattle.std.specs.Prelude.{◌≡◌, false};
ghost use Rattle.semantics.specs.Convert.{conversion};

use semantics::Written;

// File in, file out.
#[unsafe(no_mangle)]
pub extern "C" fn room_widen(file: &[u8], out: &mut [u8]) -> Written
    ensures { conversion false file.now out.old ≡ record { written = result; out = out.new } }
{
    convert::widen(file, out)
}
