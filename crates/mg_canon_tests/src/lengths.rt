//! The lengths of codewords for worked counts, and the deepest tree.
ghost use Rattle.std.specs.Prelude.{◌*◌, ◌^◌, ◌<◌, ◌≤◌, IfOk, sum};
ghost use Rattle.std.specs.List.{All};

use mg_huff::lengths;
use std::alloc::{AllocError, Global};
use std::test::Fail;

/// Whether these counts have codewords of these lengths.
fn are_lengths(alloc: Global, counts: &[u64], wanted: &[u8]) -> bool
    requires counted { All (λ c. 1 ≤ c) counts.now }
    requires total { sum counts.now < 2 ^ 32 }
{
    let mut out = Vec::new(alloc);
    lengths(alloc, counts, &mut out).is_ok() && out.as_slice() == wanted
}

#[test]
fn worked_counts_have_their_lengths(rt: HostRuntime) {
    assert!(rt; are_lengths(rt.alloc(), &[1, 2, 2, 1, 2], &[3, 2, 2, 3, 2]));
    assert!(rt; are_lengths(rt.alloc(), &[7], &[1]));
    assert!(rt; are_lengths(rt.alloc(), &[9, 9, 9, 9], &[2, 2, 2, 2]));
    assert!(rt; are_lengths(rt.alloc(), &[1, 4_294_967_294], &[1, 1]));
    assert!(rt; are_lengths(rt.alloc(), &[], &[]));
}

/// The least and the greatest of some lengths, and the last one.
fn spread(lengths: &[u8]) -> (u8, u8, u8) {
    let mut found = (255, 0, 0);
    for length in lengths {
        found = (found.0.min(*length), found.1.max(*length), *length);
    }
    found
}

/// How many lengths these counts have, the least and the greatest, and the last one.
fn lengths_of(alloc: Global, counts: &[u64]) -> Result<(usize, (u8, u8, u8)), AllocError>
    requires counted { All (λ c. 1 ≤ c) counts.now }
    requires total { sum counts.now < 2 ^ 32 }
{
    let mut out = Vec::new(alloc);
    lengths(alloc, counts, &mut out)?;
    Ok((out.len(), spread(&out)))
}

/// The first 45 Fibonacci numbers, whose sum is 2,971,215,072.
const FIBONACCI: [u64; 45] = [
    1, 1, 2, 3, 5, 8, 13, 21, 34, 55, 89, 144, 233, 377, 610, 987, 1597, 2584, 4181, 6765, 10946,
    17711, 28657, 46368, 75025, 121393, 196418, 317811, 514229, 832040, 1346269, 2178309, 3524578,
    5702887, 9227465, 14930352, 24157817, 39088169, 63245986, 102334155, 165580141, 267914296,
    433494437, 701408733, 1134903170,
];

#[test]
fn the_deepest_tree_has_44_levels(rt: HostRuntime) -> Result<(), Fail> {
    assert!(rt; lengths_of(rt.alloc(), &FIBONACCI)? == (45, (1, 44, 1)));
    Ok(())
}

/// So many counts of one.
fn ones(alloc: Global, many: usize) -> Result<Vec<u64>, AllocError>
    requires { many < 2 ^ 32 }
    ensures counted { IfOk result (λ counts. All (λ c. 1 ≤ c) counts.items) }
    ensures total { IfOk result (λ counts. sum counts.items < 2 ^ 32) }
{
    vec![in alloc; 1; many]
}

/// What lengths_of tells of so many counts of one.
fn lengths_of_ones(alloc: Global, many: usize) -> Result<(usize, (u8, u8, u8)), AllocError>
    requires { many < 2 ^ 32 }
{
    let counts = ones(alloc, many)?;
    lengths_of(alloc, &counts)
}

#[test]
fn four_million_equal_counts_have_22_bits_each(rt: HostRuntime) -> Result<(), Fail> {
    assert!(rt; lengths_of_ones(rt.alloc(), 4_194_304)? == (4_194_304, (22, 22, 22)));
    Ok(())
}
