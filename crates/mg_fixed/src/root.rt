//! The square root.
ghost use Rattle.std.specs.Prelude.{◌≡◌};
ghost use Rattle.mg_defs.specs.Fixed.{isqrt as root, IsRoot};

/// The greatest number whose square is at most `x`.
pub fn isqrt(x: u64) -> u32
    ensures is { result ≡ root x }
    ensures greatest { IsRoot x result }
{
    x.isqrt() as u32
}
