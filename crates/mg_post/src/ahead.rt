//! Postings within bits that were looked at.
//!
//! Most codes are short, so that 57 bits, looked at once, have many postings. Each code is read from
//! the bits as a number, and none is read twice.
ghost use Rattle.std.specs.Prelude.{◌≡◌, ◌+◌, ◌<◌, ◌≤◌, ◌^◌, IfSome};
ghost use Rattle.mg_defs.specs.Codes.{ceil_log2, gamma, golomb, short, unary};
ghost use Rattle.mg_defs.specs.Lists.{posting_bits, Follows};
ghost use Rattle.mg_post.specs.Ahead.{IsGapCode, Takes};

use crate::bounds::DocBounds;
use crate::parameter::Parameter;
use mg_defs::Posting;

/// Bits that were looked at and not read yet, as a number, and how many they are.
#[derive(Clone, Copy)]
pub struct Ahead {
    pub bits: u64,
    pub count: u32,
    ghost below: { bits < 2 ^ count },
    ghost few: { count ≤ 57 },
}

impl Ahead {
    /// No bits.
    pub fn none() -> Self
        ensures bits { result.bits ≡ 0 }
        ensures count { result.count ≡ 0 }
    {
        Ahead { bits: 0, count: 0 }
    }
}

/// A number whose code stands first of such bits, and the bits behind it.
#[derive(Clone, Copy)]
pub struct Coded {
    pub value: u64,
    pub left: Ahead,
}

/// A posting that stands first of such bits, and the bits behind it.
#[derive(Clone, Copy)]
pub struct Passed {
    pub posting: Posting,
    pub left: Ahead,
}

/// The codes of a list's gaps: their parameter, the length of the longer short codes, and how many
/// remainders have one bit less.
#[derive(Clone, Copy)]
pub struct GapCode {
    pub parameter: Parameter,
    pub size: u32,
    pub few: u64,
    ghost code: { IsGapCode parameter.value size few },
}

/// A power of two.
#[inline]
fn power(exponent: u32) -> u64
    requires { exponent ≤ 57 }
    ensures { result ≡ 2 ^ exponent }
{
    1u64 << exponent
}

/// The length of the longer short codes with a parameter.
fn longer_size(parameter: Parameter) -> u32
    ensures size { result ≡ ceil_log2 parameter.value }
    ensures small { result ≤ 48 }
{
    if parameter.value <= 1 {
        0
    } else {
        1 + (parameter.value - 1).ilog2()
    }
}

/// The codes of gaps with a parameter.
pub fn gap_code(parameter: Parameter) -> GapCode
    ensures { result.parameter.value ≡ parameter.value }
{
    let size = longer_size(parameter);
    GapCode {
        parameter,
        size,
        few: power(size) - parameter.value,
    }
}

/// The number less 1 whose unary code stands first.
#[inline]
fn unary_ahead(ahead: Ahead) -> Option<Coded>
    ensures takes { IfSome result (λ c.
        Takes (unary (1 + c.value)) ahead.bits ahead.count c.left.bits c.left.count) }
    ensures small { IfSome result (λ c. c.value < 57) }
{
    let rest = power(ahead.count) - 1 - ahead.bits;
    if rest == 0 {
        return None;
    }
    let count = rest.ilog2();
    Some(Coded {
        value: u64::from(ahead.count - 1 - count),
        left: Ahead {
            bits: ahead.bits % power(count),
            count,
        },
    })
}

/// The remainder whose short code stands first.
#[inline]
fn short_ahead(ahead: Ahead, code: GapCode) -> Option<Coded>
    ensures takes { IfSome result (λ c.
        Takes (short code.parameter.value c.value) ahead.bits ahead.count c.left.bits
        c.left.count) }
    ensures low { IfSome result (λ c. c.value < code.parameter.value) }
{
    if code.size == 0 {
        return Some(Coded {
            value: 0,
            left: ahead,
        });
    }
    if ahead.count < code.size {
        return None;
    }
    let count = ahead.count - code.size;
    let high = ahead.bits >> (count + 1);
    if high < code.few {
        return Some(Coded {
            value: high,
            left: Ahead {
                bits: ahead.bits % power(count + 1),
                count: count + 1,
            },
        });
    }
    Some(Coded {
        value: (ahead.bits >> count) - code.few,
        left: Ahead {
            bits: ahead.bits % power(count),
            count,
        },
    })
}

/// The gap whose Golomb code stands first.
#[inline]
fn gap_ahead(ahead: Ahead, code: GapCode) -> Option<Coded>
    ensures takes { IfSome result (λ c.
        Takes (golomb code.parameter.value c.value) ahead.bits ahead.count c.left.bits
        c.left.count) }
    ensures some { IfSome result (λ c. 1 ≤ c.value) }
{
    let Some(lead) = unary_ahead(ahead) else {
        return None;
    };
    let Some(low) = short_ahead(lead.left, code) else {
        return None;
    };
    Some(Coded {
        value: lead.value * code.parameter.value + low.value + 1,
        left: low.left,
    })
}

/// The count whose gamma code stands first.
#[inline]
fn count_ahead(ahead: Ahead) -> Option<Coded>
    ensures takes { IfSome result (λ c.
        Takes (gamma c.value) ahead.bits ahead.count c.left.bits c.left.count) }
    ensures range { IfSome result (λ c. (1 ≤ c.value) × (c.value < 2 ^ 29)) }
{
    // Most documents have a term once, and the code of 1 is a zero-bit.
    if ahead.count > 0 && ahead.bits >> (ahead.count - 1) == 0 {
        return Some(Coded {
            value: 1,
            left: Ahead {
                bits: ahead.bits,
                count: ahead.count - 1,
            },
        });
    }
    let Some(lead) = unary_ahead(ahead) else {
        return None;
    };
    let more = lead.value as u32;
    if lead.left.count < more {
        return None;
    }
    let count = lead.left.count - more;
    Some(Coded {
        value: power(more) + (lead.left.bits >> count),
        left: Ahead {
            bits: lead.left.bits % power(count),
            count,
        },
    })
}

/// The posting of a document within bounds that stands first.
#[inline]
pub fn posting_ahead(ahead: Ahead, code: GapCode, bounds: DocBounds) -> Option<Passed>
    ensures takes { IfSome result (λ p.
        Takes (posting_bits code.parameter.value bounds.after p.posting) ahead.bits ahead.count
        p.left.bits p.left.count) }
    ensures follows { IfSome result (λ p. Follows bounds.most bounds.after p.posting) }
{
    let Some(gap) = gap_ahead(ahead, code) else {
        return None;
    };
    if gap.value > u64::from(bounds.most - bounds.after) {
        return None;
    }
    let Some(freq) = count_ahead(gap.left) else {
        return None;
    };
    Some(Passed {
        posting: Posting {
            doc: bounds.after + gap.value as u32,
            freq: freq.value as u32,
        },
        left: freq.left,
    })
}
