// Reads a run file of either width on standard input and writes the text of its run.
#![tactic(auto)]

ghost use Rattle.std.specs.Prelude.{◌≡◌, ℕ, List, true, ◌≤◌, length, OnOk, IfSome};
ghost use Rattle.std.specs.Io.KnownBytes.{Appends, Consumes};
ghost use Rattle.io.specs.Counts.{IsPrefixLen};
ghost use Rattle.semantics.specs.Run.{over};
ghost use Rattle.semantics.specs.Widths.{most_text_of};
ghost use Rattle.semantics.specs.Response.{response};

use files::{read_file, write_text};
use report::report;
use semantics::{MOST_BYTES, MOST_WIDE_TEXT};
use std::io;
use std::io::{Read, Write};

// Writes the response to a file over the front of the text and says how long it is. It asks for as many bytes as
// any response may have, that to a wide file the most, so that none is refused for want of room.
fn respond(file: &[u8], text: &mut [u8]) -> usize
    requires { most_text_of true ≤ length text.old }
    ensures whole { (result ≡ length (response file.now)) × (text.new ≡ over (response file.now) text.old) }
    ensures counted { IsPrefixLen result text.new }
{
    let written = report(file, text);
    written.length
}

// Writes the response to all that a reader gives; where a read fails, to what came before. Says how the reads went, and how the writes.
#[tactic(auto, unfolding(semantics::specs::Widths::most_text_of))]
fn answer<R: Read, W: Write>(input: &mut R, output: &mut W) -> (io::Result<()>, io::Result<()>)
    ensures whole { OnOk result.0 (OnOk result.1 (IfSome (R.remaining input.old) (λ file. Appends (W.contents output.old) (W.contents output.new) (response file)))) }
    ensures came { OnOk result.1 ((file : List ℕ) × Consumes (R.remaining input.old) (R.remaining input.new) file × Appends (W.contents output.old) (W.contents output.new) (response file)) }
{
    // Both arrays stand before the read: one behind it is cleared twice, as today's compiler has it.
    let mut file = [0u8; MOST_BYTES + 1];
    let mut text = [0u8; MOST_WIDE_TEXT];
    let (n, read) = read_file(input, &mut file);
    let length = respond(&file[..n], &mut text);
    (read, write_text(output, &text[..length]))
}

// A read that fails counts as the end of the input, and a write that fails is not told.
fn main(rt: HostRuntime) {
    let _ = answer(&mut rt.stdin(), &mut rt.stdout());
}
