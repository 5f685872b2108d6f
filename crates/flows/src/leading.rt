//! The values that are fresh in one round are led on along the flows.
ghost use Rattle.std.specs.Prelude.{◌≡◌, ℕ, ◌+◌, ◌*◌, ◌^◌, ◌<◌, length, slice_index_or, bit_or, slice_index, slice_set};
ghost use Rattle.flows.specs.Charts.{LedOn, Ready, Went, SameMemory};
ghost use Rattle.flows.specs.Graph.{no_flow, no_node, relabeled};

use crate::charts::Chart;
use crate::fronts::Front;
use crate::records::NodeRecord;
use lattice::bitset::values;

/// What a round reads: the chart, the values at one distance from a mark, and that distance.
#[derive(Clone, Copy)]
pub(crate) struct Round<'a> {
    pub(crate) chart: Chart<'a>,
    pub(crate) fresh: &'a Front,
    pub(crate) distance: u32,
}

/// What a round writes: the labels, the words that say how their values came there, and what is new.
#[derive(Drop)]
pub(crate) struct Wave<'a> {
    pub(crate) nodes: &'a mut [NodeRecord],
    pub(crate) workspace: &'a mut [u32],
    pub(crate) next: &'a mut Front,
}

impl Wave<'_> {
    /// Puts `value` into the label of `node` and into what is new, and writes its words in the workspace.
    fn put(&mut self, node: u16, value: u8, distance: u32, arrival: u32)
        requires { (node < length self.old.nodes.now) × (node < 4096) × (128 * node + 127 < length self.old.workspace.now) × (value < 64) }
        ensures nodes { self.new.nodes.now ≡ slice_set self.old.nodes.now node
            (relabeled (slice_index_or self.old.nodes.now node no_node) (bit_or (slice_index_or self.old.nodes.now node no_node).label (2 ^ value))) }
        ensures next { self.new.next.now ≡ slice_set self.old.next.now node (bit_or (slice_index self.old.next.now node) (2 ^ value)) }
        ensures words { self.new.workspace.now ≡ slice_set (slice_set self.old.workspace.now (128 * node + value) distance) (128 * node + 64 + value) arrival }
        ensures same { SameMemory self.old self.new }
    {
        let bit = 1u64 << value;
        let first = 128 * node as usize;
        self.nodes[node as usize].label |= bit;
        self.next.add(node, bit);
        self.workspace[first + value as usize] = distance;
        self.workspace[first + 64 + value as usize] = arrival;
    }
}

impl Round<'_> {
    /// Leads the fresh values at the start of flow `number` on to its end.
    fn lead_on(&self, wave: &mut Wave, number: usize)
        requires ready { Ready self.now wave.old }
        requires number_within { number < length self.now.chart.flows.now }
        ensures ready { Ready self.now wave.new }
        ensures went { Went self.now wave.old wave.new }
        ensures led { LedOn self.now wave.new number }
    {
        let flow = self.chart.flows[number];
        if wave.nodes[flow.to as usize].verified {
            return;
        }
        for value in values(self.fresh.at(flow.from as usize)) {
            let made = self.chart.rows[flow.step as usize][value as usize];
            // The bit is read off the number, as the definitions of a graph read it.
            if made != 0 && wave.nodes[flow.to as usize].label >> made & 1 == 0 {
                // One word of the memory that is lent has the flow and the value.
                let arrival = (64 * number + value as usize) as u32;
                wave.put(flow.to, made, self.distance + 1, arrival);
            }
        }
    }

    /// Leads the fresh values of `node` on along each of its flows.
    fn lead_from(&self, wave: &mut Wave, node: usize)
        requires ready { Ready self.now wave.old }
        requires node_within { node < length self.now.chart.head.now }
        ensures ready { Ready self.now wave.new }
        ensures went { Went self.now wave.old wave.new }
        ensures led { (f : ℕ) → f < length self.now.chart.flows.now → (slice_index_or self.now.chart.flows.now f no_flow).«from» ≡ node
            → LedOn self.now wave.new f }
    {
        let mut cursor = self.chart.head[node];
        while let Some(number) = cursor {
            self.lead_on(wave, number as usize);
            cursor = self.chart.link[number as usize];
        }
    }

    /// Leads the fresh values of all nodes on.
    pub(crate) fn lead(&self, wave: &mut Wave)
        requires { Ready self.now wave.old }
        ensures ready { Ready self.now wave.new }
        ensures went { Went self.now wave.old wave.new }
        ensures led { (f : ℕ) → f < length self.now.chart.flows.now → LedOn self.now wave.new f }
    {
        for node in self.fresh.nodes() {
            self.lead_from(wave, *node as usize);
        }
    }
}
