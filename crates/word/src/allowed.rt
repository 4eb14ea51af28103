// What a run takes of a key, and of a kind with an amount, at either width.
ghost use Rattle.std.specs.Prelude.{◌≡◌, ◌&&◌, ◌||◌, eqb};
ghost use Rattle.semantics.specs.Words.{is_live_key, is_kind, takes_amount};

// Whether a key is live: 0 is the key of an empty cell, and 65,535 that of a tombstone.
#[tactic(auto, unfolding(semantics::specs::Words::is_live_key))]
pub fn is_live_key(key: u16) -> bool
    ensures { result ≡ is_live_key key }
{
    0 < key && key < 65535
}

// Whether an operation may have the kind of this number, by whether its amount is 0. Find and remove take no other, and
// any number but those of the five kinds is refused.
// By number: a word may have any there, and no kind stands for the others.
#[tactic(auto, unfolding(semantics::specs::Words::is_kind, semantics::specs::Words::takes_amount))]
fn kind_allowed(kind: u8, nothing: bool) -> bool
    ensures { result ≡ (is_kind kind && (takes_amount kind || nothing)) }
{
    match kind {
        1 | 5 => nothing,
        2 | 3 | 4 => true,
        _ => false,
    }
}

// Whether an operation may have these fields: what lies above its kind, its kind, its key, and whether its amount is 0.
// By number, as `kind_allowed`.
pub(crate) fn fields_allowed(above: u32, kind: u8, key: u16, nothing: bool) -> bool
    ensures { result ≡ (eqb above 0 && is_kind kind && is_live_key key && (takes_amount kind || nothing)) }
{
    above == 0 && is_live_key(key) && kind_allowed(kind, nothing)
}
