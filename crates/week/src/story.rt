//! Who and what the week is about: the nodes, the steps and the flows, by the names that the story has for them.
use std::fmt;

// Sets of purposes: royalties are value 1, adverts value 2.
const ROYALTIES: u64 = 1 << 1;

const ADVERTS: u64 = 1 << 2;

/// The file that the readers send, and the jobs that it comes to, in the order in which they are entered.
#[derive(Clone, Copy)]
pub enum Node {
    File,
    Layout,
    Royalty,
    Profile,
    Pace,
    Reader,
}

impl Node {
    /// What the node is declared to be for. Where nothing is declared, it may be for anything.
    pub fn purpose(self) -> u64 {
        match self {
            Node::Royalty => ROYALTIES,
            Node::Pace | Node::Reader => ADVERTS,
            Node::File | Node::Layout | Node::Profile => 0,
        }
    }
}

impl fmt::Display for Node {
    fn fmt<W: fmt::Write>(&self, f: &mut fmt::Formatter<W>) -> fmt::Result {
        f.write_str(match self {
            Node::File => "the reading file",
            Node::Layout => "the layout job",
            Node::Royalty => "the royalties job",
            Node::Profile => "the reader profiles",
            Node::Pace => "adverts by pace",
            Node::Reader => "adverts by reader",
        })
    }
}

/// What a flow makes of a value. The first step is there from the start, the others are added in this order.
#[derive(Clone, Copy)]
pub enum Step {
    AsItIs,
    CountedByChapter,
    ByRegionAlone,
}

impl Step {
    /// What becomes of each data type.
    pub fn row(self) -> [u8; 7] {
        match self {
            Step::AsItIs => [0, 1, 2, 3, 4, 5, 6],
            Step::CountedByChapter => [0, 0, 0, 3, 3, 5, 5],
            Step::ByRegionAlone => [0, 1, 1, 0, 0, 0, 0],
        }
    }
}

impl fmt::Display for Step {
    fn fmt<W: fmt::Write>(&self, f: &mut fmt::Formatter<W>) -> fmt::Result {
        f.write_str(match self {
            Step::AsItIs => "as it is",
            Step::CountedByChapter => "counted by chapter",
            Step::ByRegionAlone => "identity by region alone",
        })
    }
}

#[derive(Clone, Copy)]
pub struct Flow {
    pub from: Node,
    pub to: Node,
    pub step: Step,
}

impl fmt::Display for Flow {
    fn fmt<W: fmt::Write>(&self, f: &mut fmt::Formatter<W>) -> fmt::Result {
        let Flow { from, to, step } = *self;
        write!(f, "a flow from {from} to {to}, {step}")
    }
}
