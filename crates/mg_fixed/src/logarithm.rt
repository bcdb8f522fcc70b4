//! The logarithm.
ghost use Rattle.std.specs.Prelude.{◌≡◌, ◌*◌, ◌/◌, ◌^◌, ◌<◌, ◌≤◌};
ghost use Rattle.mg_defs.specs.Fixed.{square as square_of, digit, next, lg as logarithm};

// The digits are read from a fraction of 31 bits, so its square fits in 64.
const POINT: u32 = 31;

/// x, shifted to lie between 2^31 and 2^32.
#[inline]
fn brought(x: u64, whole: u32) -> u64
    requires low { 2 ^ whole ≤ x }
    requires high { x < 2 * 2 ^ whole }
    requires bound { whole < 64 }
    ensures is { result ≡ x * 2 ^ 31 / 2 ^ whole }
    ensures small { result < 2 ^ 32 }
{
    if whole <= POINT {
        x << (POINT - whole)
    } else {
        x >> (whole - POINT)
    }
}

#[inline]
fn square(y: u64) -> u64
    requires { y < 2 ^ 32 }
    ensures is { result ≡ square_of y }
    ensures small { result < 2 ^ 33 }
{
    (y * y) >> POINT
}

/// The next digit, and what the one after it is read from.
#[inline]
#[tactic(auto, unfolding(mg_defs::specs::Fixed::digit, mg_defs::specs::Fixed::next))]
fn step(y: u64) -> (u32, u64)
    requires { y < 2 ^ 32 }
    ensures digit { result.0 ≡ digit y }
    ensures next { result.1 ≡ next y }
    ensures bit { result.0 ≤ 1 }
    ensures small { result.1 < 2 ^ 32 }
{
    let squared = square(y);
    if squared >= 1 << 32 {
        (1, squared / 2)
    } else {
        (0, squared)
    }
}

/// The logarithm of `x` to base 2, in units of 1/256, rounded down: 256 times the whole part, and
/// eight binary digits, each read by squaring.
pub fn lg(x: u64) -> u32
    requires { 1 ≤ x }
    ensures is { result ≡ logarithm x }
    ensures bound { result < 2 ^ 14 }
{
    let whole = x.ilog2();
    let mut y = brought(x, whole);
    let mut digits = 0u32;
    for i in 0..8u32 {
        let (digit, next) = step(y);
        digits = digits * 2 + digit;
        y = next;
    }
    256 * whole + digits
}
