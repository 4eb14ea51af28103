// Sets of 64 places: a word of 64 bits, with one for each place, whose ones are the set's size. The finished
// operations of a run are one, and so are 64 of the keys that a check has seen. A set is the word itself, so that
// one which stands in an array or a register is a number. Every function takes every input.
#![tactic(auto, using(crate::proofs::Sets::places))]

ghost use Rattle.std.specs.Prelude.{◌≡◌};
ghost use Rattle.std.specs.Int.Count.{ones};
ghost use Rattle.semantics.specs.Sets.{is_in, including};

// Whether a place is in the set; a number past 63 is no place.
pub fn has(set: u64, place: u8) -> bool
    ensures { result ≡ is_in set place }
{
    place < 64 && (set >> place) & 1 == 1
}

// The set with one place more. Adding a number past 63, which is no place, changes nothing.
pub fn with(set: u64, place: u8) -> u64
    ensures { result ≡ including set place }
{
    if place < 64 { set | (1 << place) } else { set }
}

// How many places are in the set.
pub fn size(set: u64) -> usize
    ensures { result ≡ ones set }
{
    set.count_ones() as usize
}
