//! The values that stand at the nodes at one distance from a mark, and the nodes that have any.
ghost use Rattle.std.specs.Prelude.{◌≡◌, ℕ, ◌<◌, length, Decides, slice_index, slice_set, bit_or};
ghost use Rattle.flows.specs.Fronts.{Empty, Lists};

use arrayvec::ArrayVec;
use std::marker::Model;

/// A set of values for each of 4,096 nodes, and the nodes whose sets are not empty, each once.
///
/// A contract sees the list of the sets.
#[derive(Drop)]
pub(crate) struct Front {
    sets: [u64; 4096],
    nodes: ArrayVec<u16, 4096>,
}

impl Model for Front {
    ghost use Rattle.std.specs.Prelude.{ℕ, List};
    ghost use Rattle.flows.specs.Fronts.{Listed};

    ghost Value = { List ℕ };

    ghost view = { λ f. f.sets };

    ghost invariant = { λ f. Listed f.sets f.nodes.items };
}

impl Front {
    /// No values at any node.
    pub(crate) fn new() -> Self
        ensures { Empty result }
    {
        let sets = [0; 4096];
        let nodes = ArrayVec::new();
        Front { sets, nodes }
    }

    /// Whether no node has values.
    pub(crate) fn is_empty(&self) -> bool
        ensures { Decides result (Empty self.now) }
    {
        self.nodes.is_empty()
    }

    /// The values at a node.
    pub(crate) fn at(&self, node: usize) -> u64
        requires { node < 4096 }
        ensures { result ≡ slice_index self.now node }
    {
        self.sets[node]
    }

    /// The nodes that have values.
    pub(crate) fn nodes(&self) -> &[u16]
        ensures { Lists self.now result.now }
    {
        self.nodes.as_slice()
    }

    /// Adds values to those at a node.
    pub(crate) fn add(&mut self, node: u16, values: u64)
        requires { node < 4096 }
        ensures { self.new ≡ slice_set self.old node (bit_or (slice_index self.old node) values) }
    {
        let set = self.sets[node as usize];
        if set == 0 && values != 0 {
            self.nodes.push(node);
        }
        self.sets[node as usize] = set | values;
    }

    /// Leaves no values at any node.
    fn clear(&mut self)
        ensures { Empty self.new }
    {
        for node in self.nodes.as_slice() {
            self.sets[*node as usize] = 0;
        }
        self.nodes.clear();
    }

    /// Has the values of the other in place of its own, and leaves the other none.
    pub(crate) fn take(&mut self, other: &mut Front)
        ensures moved { (n : ℕ) → slice_index self.new n ≡ slice_index other.old n }
        ensures long { length self.new ≡ 4096 }
        ensures emptied { Empty other.new }
    {
        self.clear();
        // Node by node: there may be as many rounds as values at all nodes, and a swap would move all 4,096 sets in each.
        for node in other.nodes() {
            self.add(*node, other.at(usize::from(*node)));
        }
        other.clear();
    }
}
