// Reads a run file on standard input and writes the wide file of a narrow one, or the line of its refusal.
#![tactic(auto)]

use convert::convert_text;
use files::{read_file, write_text};
use semantics::MOST_BYTES;

// A read that fails counts as the end of the input, and a write that fails is not told.
fn main(rt: HostRuntime) {
    let mut file = [0u8; MOST_BYTES + 1];
    let (n, _) = read_file(&mut rt.stdin(), &mut file);
    let mut out = [0u8; MOST_BYTES];
    let length = convert_text(&file[..n], false, &mut out);
    let _ = write_text(&mut rt.stdout(), &out[..length]);
}
