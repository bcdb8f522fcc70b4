//! Code lengths by Huffman's method (*Managing Gigabytes*, chapter 2).
//!
//! Only the lengths are made: a canonical code follows from them alone, so no tree of pointers is
//! ever built. The counts are sorted once, and the two lightest nodes joined by two queues, one of
//! leaves and one of inner nodes; then the joins are taken back, the latest first, and give the
//! depth of each leaf. Beside the counts and the lengths this takes 35 bytes a count at most.
//!
//! A leaf at depth `d` of Huffman's tree needs a total count of at least the Fibonacci number
//! `F(d + 2)`, and `F(48)` is above 2^32 - 1; so no length is above 45.
#![tactic(auto)]

mod counted;
mod depth;
mod join;
mod laws;

ghost use Rattle.std.specs.Prelude.{◌≡◌, ◌^◌, ◌<◌, ◌≤◌, length, sum, IfOk, IfErr, []};
ghost use Rattle.std.specs.List.{All};
ghost use Rattle.mg_defs.specs.Canon.{AreGood};
ghost use Rattle.mg_defs.specs.Cost.{huffman_cost, cost_of};

use crate::counted::{in_places, ranked, weights};
use crate::depth::leaf_depths;
use crate::join::grow;
pub use crate::laws::counts_have_codes;
use std::alloc::{AllocError, Global};

/// The lengths of two or more counts.
fn many_lengths(alloc: Global, counts: &[u64]) -> Result<Vec<u8>, AllocError>
    requires many { 2 ≤ length counts.now }
    requires counted { All (λ c. 1 ≤ c) counts.now }
    requires total { sum counts.now < 2 ^ 32 }
    ensures good { IfOk result (λ found. AreGood found.items) }
    ensures cost { IfOk result (λ found. cost_of counts.now found.items ≡ huffman_cost counts.now) }
    ensures within { IfOk result (λ found. All (λ l. l ≤ 45) found.items) }
    ensures same_length { IfOk result (λ found. length found.items ≡ length counts.now) }
{
    let order = ranked(alloc, counts)?;
    let leaves = weights(alloc, &order)?;
    let joins = grow(alloc, &leaves)?;
    let found = leaf_depths(alloc, &leaves, &joins)?;
    in_places(alloc, counts, &order, &found)
}

/// The lengths of any counts.
fn any_lengths(alloc: Global, counts: &[u64]) -> Result<Vec<u8>, AllocError>
    requires counted { All (λ c. 1 ≤ c) counts.now }
    requires total { sum counts.now < 2 ^ 32 }
    ensures good { IfOk result (λ found. AreGood found.items) }
    ensures cost { IfOk result (λ found. cost_of counts.now found.items ≡ huffman_cost counts.now) }
    ensures within { IfOk result (λ found. All (λ l. l ≤ 45) found.items) }
    ensures same_length { IfOk result (λ found. length found.items ≡ length counts.now) }
{
    match counts {
        [] => Ok(Vec::new(alloc)),
        [_] => vec![in alloc; 1; 1],
        _ => many_lengths(alloc, counts),
    }
}

/// Leaves in `out` the lengths of a Huffman code of these counts, in bits, one for each count in
/// their order. One count alone has length 1. Each count is at least 1, and their sum is at most
/// 2^32 - 1. Which of the codes of least cost it is where counts tie is not promised.
pub fn lengths(alloc: Global, counts: &[u64], out: &mut Vec<u8>) -> Result<(), AllocError>
    requires counted { All (λ c. 1 ≤ c) counts.now }
    requires total { sum counts.now < 2 ^ 32 }
    ensures same_length { IfOk result (λ _. length out.new.items ≡ length counts.now) }
    ensures good { IfOk result (λ _. AreGood out.new.items) }
    ensures cost { IfOk result (λ _. cost_of counts.now out.new.items ≡ huffman_cost counts.now) }
    ensures within { IfOk result (λ _. All (λ l. l ≤ 45) out.new.items) }
    ensures lack { IfErr result (λ _. out.new.items ≡ []) }
{
    out.clear();
    *out = any_lengths(alloc, counts)?;
    Ok(())
}
