//! What is dropped apart from where it was used.
ghost use Rattle.std.specs.Prelude.{◌≡◌};

/// An answer. What was loaded or made for it is dropped here: so who answers has none of its parts to drop.
pub fn without<L: Drop, R>(_made: L, answer: R) -> R
    ensures { result ≡ answer }
{
    answer
}
