// Down: the narrow file of a wide one, under a name of C, for the tests and the bench. Nothing is decided here: it is
// the function that it calls. Each direction has a library, so that a caller links only what it calls.
#![tactic(auto)]

ghost use Rattle.std.specs.Prelude.{◌≡◌, true};
ghost use Rattle.semantics.specs.Convert.{conversion};

use semantics::Written;

// File in, file out.
#[unsafe(no_mangle)]
pub extern "C" fn room_narrow(file: &[u8], out: &mut [u8]) -> Written
    ensures { conversion true file.now out.old ≡ record { written = result; out = out.new } }
{
    convert::narrow(file, out)
}
