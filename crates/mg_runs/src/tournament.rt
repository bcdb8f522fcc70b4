//! The least of many keys.
ghost use Rattle.std.specs.Prelude.{◌≡◌, ◌≤◌, ◌<◌, ◌+◌, ◌*◌, ◌-◌, ◌^◌, ℕ, IfOk, length, slice_index, slice_set};
ghost use Rattle.mg_runs.specs.Tournament.{IsLesser, IsPlayedAt};

use std::alloc::{AllocError, Global};
use std::marker::Model;

/// The keys of contestants, and which of them is the least.
///
/// It is a tree in two vectors: node 1 is the root, the nodes below node `i` are `2 * i` and
/// `2 * i + 1`, and the contestants are the last nodes. Each node has the least key below it and
/// whose key that is, so that a changed key costs as many comparisons as the tree has levels.
/// (Knuth, The Art of Computer Programming, volume 3, section 5.4.1.)
#[derive(Drop)]
pub struct Tournament {
    count: usize,
    keys: Vec<u64>,
    winners: Vec<u32>,
}

impl Model for Tournament {
    ghost use Rattle.std.specs.Prelude.{ℕ, List, drop};
    ghost use Rattle.mg_runs.specs.Tournament.{IsTournament};

    ghost Value = { List ℕ };

    ghost view = { λ t. drop t.count t.keys.items };

    ghost invariant = { λ t. IsTournament t.count t.keys.items t.winners.items };
}

/// The one of the two nodes below a node that has the lesser key.
fn lesser(keys: &Vec<u64>, i: usize) -> usize
    requires { 2 * i + 1 < length keys.now.items }
    ensures { IsLesser keys.now.items i result }
{
    if keys[2 * i + 1] < keys[2 * i] {
        2 * i + 1
    } else {
        2 * i
    }
}

/// Gives a node the lesser of the two keys below it.
fn play(keys: &mut Vec<u64>, winners: &mut Vec<u32>, i: usize)
    requires node { 1 ≤ i }
    requires keys { 2 * i + 1 < length keys.old.items }
    requires winners { 2 * i + 1 < length winners.old.items }
    ensures { IsPlayedAt i keys.old.items winners.old.items keys.new.items winners.new.items }
{
    let child = lesser(keys, i);
    keys[i] = keys[child];
    winners[i] = winners[child];
}

impl Tournament {
    /// So many contestants, whose keys are the greatest.
    pub fn new(alloc: Global, count: u32) -> Result<Self, AllocError>
        requires some { 1 ≤ count }
        requires small { count < 2 ^ 31 }
        ensures len { IfOk result (λ t. length t ≡ count) }
    {
        let count = count as usize;
        let mut keys = vec![in alloc; u64::MAX; 2 * count]?;
        let mut winners = vec![in alloc; 0; 2 * count]?;
        for k in 0..count {
            winners[count + k] = k as u32;
        }
        let mut i = count;
        while i > 1 {
            i -= 1;
            play(&mut keys, &mut winners, i);
        }
        Ok(Tournament {
            count,
            keys,
            winners,
        })
    }

    /// The contestant with the least key.
    pub fn least(&self) -> u32
        ensures within { result < length self.now }
        ensures least { (k : ℕ) → k < length self.now → slice_index self.now result
            ≤ slice_index self.now k }
    {
        self.winners[1]
    }

    /// Changes a contestant's key.
    pub fn set(&mut self, contestant: u32, key: u64)
        requires { contestant < length self.old }
        ensures { self.new ≡ slice_set self.old contestant key }
    {
        let leaf = self.count + contestant as usize;
        self.keys[leaf] = key;
        let mut i = leaf / 2;
        while i >= 1 {
            play(&mut self.keys, &mut self.winners, i);
            i /= 2;
        }
    }
}
