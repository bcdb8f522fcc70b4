//! Two values, one beside the other.
//!
//! What is given up where the second lacks is given up here, where nothing is seen of what it holds.
ghost use Rattle.std.specs.Prelude.{◌≡◌};
ghost use Rattle.mg_count.specs.Pairs.{paired};

/// A value, and beside it the one that was asked for after it.
pub(crate) fn pair<A: Drop, B, E>(first: A, second: Result<B, E>) -> Result<(A, B), E>
    ensures { result ≡ paired first second }
{
    match second {
        Ok(second) => Ok((first, second)),
        Err(refusal) => Err(refusal),
    }
}
