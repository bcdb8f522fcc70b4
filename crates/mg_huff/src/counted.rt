//! Counts in rising order, and values put back in the places of their counts.
ghost use Rattle.std.specs.Prelude.{◌≡◌, ◌≤◌, length, IfOk};
ghost use Rattle.std.specs.List.{All};
ghost use Rattle.mg_huff.specs.Rising.{Rising};
ghost use Rattle.mg_huff.specs.Ranking.{counts_of, IsListed, AreInPlace};

use std::alloc::{AllocError, Global};

/// A count with its place among the counts.
#[derive(Clone, Copy, Drop)]
pub struct Counted {
    pub count: u64,
    pub place: usize,
}

/// The counts in rising order, each with its place.
pub fn ranked(alloc: Global, counts: &[u64]) -> Result<Vec<Counted>, AllocError>
    ensures listed { IfOk result (λ order. IsListed counts.now order.items) }
    ensures rising { IfOk result (λ order. Rising (counts_of order.items)) }
{
    let mut order = Vec::with_capacity(alloc, counts.len())?;
    for (place, count) in counts.iter().enumerate() {
        order.push(Counted {
            count: *count,
            place,
        })?;
    }
    order.sort_unstable_by_key(|counted| counted.count);
    Ok(order)
}

/// The counts in their order.
pub fn weights(alloc: Global, order: &[Counted]) -> Result<Vec<u64>, AllocError>
    ensures { IfOk result (λ weights. weights.items ≡ counts_of order.now) }
{
    order.iter().map(|counted| counted.count).collect(alloc)
}

/// The lengths that were found in the order of the counts, each in the place of its count.
pub fn in_places(
    alloc: Global,
    counts: &[u64],
    order: &[Counted],
    found: &[u8],
) -> Result<Vec<u8>, AllocError>
    requires listed { IsListed counts.now order.now }
    requires length { length found.now ≡ length counts.now }
    requires within { All (λ d. d ≤ 45) found.now }
    ensures { IfOk result (λ out. AreInPlace counts.now order.now found.now out.items) }
{
    let mut out = vec![in alloc; 0; counts.len()]?;
    for (at, counted) in order.iter().enumerate() {
        out[counted.place] = found[at];
    }
    Ok(out)
}
