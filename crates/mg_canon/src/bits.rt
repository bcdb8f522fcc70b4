//! A bit as a number.
ghost use Rattle.std.specs.Prelude.{◌≡◌, if◌then◌else◌};

/// The number of one bit.
pub fn number_of(bit: bool) -> u32
    ensures { result ≡ (if bit then 1 else 0) }
{
    if bit { 1 } else { 0 }
}
