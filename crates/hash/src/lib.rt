// The size of a table and the home of a key in it: the cell that the hash of the key gives, where a search
// begins. Every function takes every input.
#![tactic(auto)]

ghost use Rattle.std.specs.Prelude.{◌≡◌, true};
ghost use Rattle.semantics.specs.Words.{size_allowed, home_in, scaled_home};

// Whether a table may have c cells: a power of two from 2^0 to 2^12. One bit of c is set, and the
// zeros below that bit are as many as the exponent.
#[tactic(auto, using(crate::proofs::Powers::sizes))]
pub fn size_allowed(c: usize) -> bool
    ensures { result ≡ size_allowed c }
{
    c.count_ones() == 1 && c.trailing_zeros() < 13
}

// The home of a key in c cells, as its hash, one of 65,536, scaled to c: no quotient by a number that is
// handed in is taken. A key has a home in a table of an allowed size alone; the first clause says what any
// other size gets.
#[tactic(auto, using(crate::proofs::Powers::homes), unfolding(semantics::specs::Words::scaled_home))]
pub fn home(key: u16, c: u32) -> u32
    ensures scaled { result ≡ scaled_home c key }
    ensures home { size_allowed c ≡ true → result ≡ home_in c key }
{
    let hash = (key as u64) * 40503 % 65536;
    (hash * (c as u64) / 65536) as u32
}
