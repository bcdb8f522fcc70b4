//! Which documents of a text are closed by a byte.
ghost use Rattle.std.specs.Prelude.{◌≡◌};
ghost use Rattle.mg_defs.specs.Split.{is_closed};

/// Whether a byte closes this document of so many. It closes each, but the last one where the end is
/// open.
#[inline]
pub fn is_closed(number: u32, documents: u32, open_end: bool) -> bool
    ensures { result ≡ is_closed number documents open_end }
{
    if number == documents { !open_end } else { true }
}
