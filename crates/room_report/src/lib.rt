// The whole report under a name of C, for the tests and the bench: file in, text out, of either width. Nothing is
// decided here: it is the function that it calls. It is apart from room_table and room_table_wide, which have one
// width each.
#![tactic(auto)]

ghost use Rattle.std.specs.Prelude.{◌≡◌};
ghost use Rattle.semantics.specs.Text.{handed};
ghost use Rattle.semantics.specs.Response.{response};

use semantics::Written;

// File in, text out, of either width.
#[unsafe(no_mangle)]
pub extern "C" fn room_report(file: &[u8], out: &mut [u8]) -> Written
    ensures { handed (response file.now) out.old ≡ record { written = result; out = out.new } }
{
    report::report(file, out)
}
