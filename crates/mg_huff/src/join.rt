//! The two lightest nodes joined, until one tree is left.
//!
//! The nodes wait in two queues, each in rising order of weight: the leaves, and the inner nodes
//! in the order in which they were made. A join makes a node no lighter than any made before, so
//! the second queue keeps its order by pushes alone, and the lightest node of all stands at the
//! front of one of the two.
ghost use Rattle.std.specs.Prelude.{◌≡◌, ◌+◌, ◌^◌, ◌<◌, ◌≤◌, length, drop, sum, IfOk, slice_index};
ghost use Rattle.std.specs.Bool.{OnTrue, OnFalse};
ghost use Rattle.mg_huff.specs.Rising.{Above, Rising};
ghost use Rattle.mg_huff.specs.Forest.{on_leaves, on_inner, IsWhole};

use std::alloc::{AllocError, Global};

/// Two nodes that were joined, the lighter first, by whether each is a leaf.
#[derive(Clone, Copy, Drop)]
pub struct Join {
    pub first: bool,
    pub second: bool,
}

/// How many leaves and how many inner nodes are joined already.
#[derive(Clone, Copy, Drop)]
struct Front {
    leaf: usize,
    inner: usize,
}

/// The lightest node that is left.
#[derive(Clone, Copy, Drop)]
struct Lightest {
    is_leaf: bool,
    weight: u64,
}

/// Whether a leaf is the lightest node that is left.
fn is_leaf_next(front: &Front, leaves: &[u64], inner: &[u64]) -> bool
    requires left { front.now.leaf + front.now.inner < length leaves.now + length inner.now }
    requires leaf_range { front.now.leaf ≤ length leaves.now }
    requires inner_range { front.now.inner ≤ length inner.now }
    requires leaves_rise { Rising (drop front.now.leaf leaves.now) }
    requires inner_rise { Rising (drop front.now.inner inner.now) }
    ensures leaf_there { OnTrue result (front.now.leaf < length leaves.now) }
    ensures leaf_least { OnTrue result
        (Above (slice_index leaves.now front.now.leaf) (drop front.now.inner inner.now)) }
    ensures inner_there { OnFalse result (front.now.inner < length inner.now) }
    ensures inner_least { OnFalse result
        (Above (slice_index inner.now front.now.inner) (drop front.now.leaf leaves.now)) }
{
    if front.inner >= inner.len() {
        return true;
    }
    if front.leaf >= leaves.len() {
        return false;
    }
    leaves[front.leaf] <= inner[front.inner]
}

/// Takes the lightest node that is left.
fn take_lightest(front: &mut Front, leaves: &[u64], inner: &[u64]) -> Lightest
    requires left { front.old.leaf + front.old.inner < length leaves.now + length inner.now }
    requires leaf_range { front.old.leaf ≤ length leaves.now }
    requires inner_range { front.old.inner ≤ length inner.now }
    requires leaves_rise { Rising (drop front.old.leaf leaves.now) }
    requires inner_rise { Rising (drop front.old.inner inner.now) }
    ensures leaves { drop front.old.leaf leaves.now ≡ on_leaves result.is_leaf result.weight
        (drop front.new.leaf leaves.now) }
    ensures inner { drop front.old.inner inner.now ≡ on_inner result.is_leaf result.weight
        (drop front.new.inner inner.now) }
    ensures leaves_above { Above result.weight (drop front.new.leaf leaves.now) }
    ensures inner_above { Above result.weight (drop front.new.inner inner.now) }
    ensures leaf_range { front.new.leaf ≤ length leaves.now }
    ensures inner_range { front.new.inner ≤ length inner.now }
    ensures one_less { front.new.leaf + front.new.inner ≡ front.old.leaf + front.old.inner + 1 }
{
    if is_leaf_next(front, leaves, inner) {
        let weight = leaves[front.leaf];
        front.leaf += 1;
        Lightest {
            is_leaf: true,
            weight,
        }
    } else {
        let weight = inner[front.inner];
        front.inner += 1;
        Lightest {
            is_leaf: false,
            weight,
        }
    }
}

/// The joins that make one tree of these leaves, in the order in which they are made.
pub fn grow(alloc: Global, leaves: &[u64]) -> Result<Vec<Join>, AllocError>
    requires some { 2 ≤ length leaves.now }
    requires rise { Rising leaves.now }
    requires counted { Above 1 leaves.now }
    requires total { sum leaves.now < 2 ^ 32 }
    ensures { IfOk result (λ joins. IsWhole leaves.now joins.items) }
{
    let mut joins = Vec::with_capacity(alloc, leaves.len() - 1)?;
    let mut inner = Vec::with_capacity(alloc, leaves.len() - 1)?;
    let mut front = Front { leaf: 0, inner: 0 };
    for made in 1..leaves.len() {
        let first = take_lightest(&mut front, leaves, &inner);
        let second = take_lightest(&mut front, leaves, &inner);
        inner.push(first.weight + second.weight)?;
        joins.push(Join {
            first: first.is_leaf,
            second: second.is_leaf,
        })?;
    }
    Ok(joins)
}
