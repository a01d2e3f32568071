// A tree of greatest values, which finds the first value of a list that is large enough.
ghost use Rattle.std.specs.Prelude.{◌≡◌, ℕ, ◌+◌, ◌^◌, ◌<◌, ◌≤◌, length, slice_index, slice_set, max, IfOk, MatchOption};
ghost use Rattle.cq_pack.specs.Tree.{IsFirst, NoneReaches};

use std::alloc::{AllocError, Global};
use std::marker::Model;

/// Values in order, of which the first one that is large enough is found without a look at all. A contract sees the list
/// of values.
#[derive(Drop)]
pub(crate) struct Greatest {
    /// A node has the greater of its two children's values. Node 1 is the root, those of node n are 2 n and 2 n + 1, and
    /// the values stand in the last half of the nodes.
    nodes: Vec<u64>,
    levels: usize,
}

impl Model for Greatest {
    ghost use Rattle.std.specs.Prelude.{ℕ, List, drop, ◌^◌};
    ghost use Rattle.cq_pack.specs.Tree.{IsTree};

    ghost Value = { List ℕ };

    ghost view = { λ t. drop (2 ^ t.levels) t.nodes.items };

    ghost invariant = { λ t. IsTree t.levels t.nodes.items };
}

impl Greatest {
    /// Zeros, at least so many.
    pub(crate) fn new(alloc: Global, count: usize) -> Result<Greatest, AllocError>
        requires { count < 2 ^ 62 }
        ensures room { IfOk result (λ t. count ≤ length t) }
        ensures zeros { IfOk result (λ t. (k : ℕ) → slice_index t k ≡ 0) }
    {
        let mut levels = 0;
        let mut leaves: usize = 1;
        while leaves < count {
            leaves *= 2;
            levels += 1;
        }
        let nodes = vec![in alloc; 0; 2 * leaves]?;
        Ok(Greatest { nodes, levels })
    }

    /// Sets a value.
    pub(crate) fn set(&mut self, place: usize, value: u64)
        requires { place < length self.old }
        ensures { self.new ≡ slice_set self.old place value }
    {
        let leaves = self.nodes.len() / 2;
        self.nodes[leaves + place] = value;
        let mut node = (leaves + place) / 2;
        while node > 0 {
            self.nodes[node] = greater(self.nodes[2 * node], self.nodes[2 * node + 1]);
            node /= 2;
        }
    }

    /// The place of the first value that is at least so large. `None` exactly where there is none.
    pub(crate) fn first(&self, least: u64) -> Option<usize>
        ensures { MatchOption result (NoneReaches least self.now) (IsFirst least self.now) }
    {
        let leaves = self.nodes.len() / 2;
        if self.nodes[1] < least {
            return None;
        }
        let mut node = 1;
        for _level in 0..self.levels {
            node *= 2;
            if self.nodes[node] < least {
                node += 1;
            }
        }
        Some(node - leaves)
    }
}

/// The greater of two numbers.
fn greater(a: u64, b: u64) -> u64
    ensures { result ≡ max a b }
{
    if a < b { b } else { a }
}
