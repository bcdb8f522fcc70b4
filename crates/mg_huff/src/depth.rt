//! The depths of a tree's leaves, from its joins taken back.
//!
//! No tree is built: the latest join made the root, and each join that is taken back turns the
//! depth of the node that it made into those of the two that it joined. The nodes come back in the
//! reverse of the order in which they were joined, so the depths of the leaves end up, reversed,
//! in the order of the leaves.
ghost use Rattle.std.specs.Prelude.{◌≡◌, ◌-◌, ◌^◌, ◌<◌, length, sum, IfOk, slice_index_or};
ghost use Rattle.mg_huff.specs.Rising.{Above};
ghost use Rattle.mg_huff.specs.Forest.{push_leaf, push_inner, IsWhole, AreDepths};

use crate::join::Join;
use std::alloc::{AllocError, Global};

/// Puts the depth of a node last among the leaves or the inner nodes.
fn place(
    is_leaf: bool,
    depth: u8,
    leaves: &mut Vec<u8>,
    inner: &mut Vec<u8>,
) -> Result<(), AllocError>
    ensures leaves { IfOk result (λ _. leaves.new.items ≡
        push_leaf is_leaf depth leaves.old.items) }
    ensures inner { IfOk result (λ _. inner.new.items ≡ push_inner is_leaf depth inner.old.items) }
{
    if is_leaf {
        leaves.push(depth)?;
    } else {
        inner.push(depth)?;
    }
    Ok(())
}

/// The join with so many made after it.
fn latest(joins: &[Join], after: usize) -> Join
    requires { after < length joins.now }
    ensures { result ≡ slice_index_or joins.now (length joins.now - 1 - after) result }
{
    joins[joins.len() - 1 - after]
}

/// The depths of the leaves, in their order.
pub fn leaf_depths(alloc: Global, leaves: &[u64], joins: &[Join]) -> Result<Vec<u8>, AllocError>
    requires whole { IsWhole leaves.now joins.now }
    requires counted { Above 1 leaves.now }
    requires total { sum leaves.now < 2 ^ 32 }
    ensures { IfOk result (λ found. AreDepths leaves.now found.items) }
{
    let mut found: Vec<u8> = Vec::with_capacity(alloc, leaves.len())?;
    let mut inner: Vec<u8> = Vec::with_capacity(alloc, joins.len())?;
    inner.push(0)?;
    for at in 0..joins.len() {
        let join = latest(joins, at);
        let depth = inner[at] + 1;
        place(join.second, depth, &mut found, &mut inner)?;
        place(join.first, depth, &mut found, &mut inner)?;
    }
    found.reverse();
    Ok(found)
}
