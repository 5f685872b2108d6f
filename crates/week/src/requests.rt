//! What the reading file's keepers and the owners of the jobs ask of the inventory, day by day.
use crate::show::DataTypes;
use crate::story::{Flow, Node, Step};
use lattice::bitset;
use runs::Call;
use std::alloc::{AllocError, Global};
use std::fmt;

const IDENTITY_FULL: u8 = 2;

const TURNS_FULL: u8 = 4;

/// One call, in the words of the story.
#[derive(Clone, Copy)]
pub enum Request {
    Enter(Node),
    Add(Step),
    Mark(Node, u8),
    Draw(Flow),
    Strike(Flow),
    Settle,
    Judge(Node),
    Path(Node, u8),
}

fn add(step: Step) -> Call {
    let mut row = [0; 64];
    row[0..7].copy_from_slice(&step.row());
    Call::Step { row, len: 7 }
}

impl From<Request> for Call {
    fn from(request: Request) -> Call {
        match request {
            Request::Enter(node) => Call::Enter {
                store: 0,
                purpose: node.purpose(),
                role: 0,
            },
            Request::Add(step) => add(step),
            Request::Mark(node, value) => Call::Mark {
                node: node as usize,
                value,
            },
            Request::Draw(flow) => Call::Draw {
                from: flow.from as usize,
                to: flow.to as usize,
                step: flow.step as usize,
            },
            Request::Strike(flow) => Call::Strike {
                from: flow.from as usize,
                to: flow.to as usize,
                step: flow.step as usize,
            },
            Request::Settle => Call::Settle,
            Request::Judge(node) => Call::Judge {
                node: node as usize,
                scheme: 0,
                policy: 0,
            },
            Request::Path(node, value) => Call::Path {
                node: node as usize,
                value,
                room: 8,
            },
        }
    }
}

impl fmt::Display for Request {
    fn fmt<W: fmt::Write>(&self, f: &mut fmt::Formatter<W>) -> fmt::Result {
        match *self {
            Request::Enter(node) => write!(f, "enter {node}"),
            Request::Add(step) => write!(f, "add what is {step}"),
            Request::Mark(node, value) => {
                let marked = DataTypes::only(value);
                write!(f, "mark {node} with {marked}")
            }
            Request::Draw(flow) => write!(f, "draw {flow}"),
            Request::Strike(flow) => write!(f, "strike {flow}"),
            Request::Settle => f.write_str("settle"),
            Request::Judge(node) => write!(f, "judge {node}"),
            Request::Path(node, value) => {
                let held = DataTypes::only(value);
                write!(f, "path by which {held} comes to {node}")
            }
        }
    }
}

fn draw(from: Node, to: Node, step: Step) -> Request {
    Request::Draw(Flow { from, to, step })
}

/// On Monday the nodes are entered, and the file is marked.
pub const MONDAY: [Request; 8] = [
    Request::Enter(Node::File),
    Request::Enter(Node::Layout),
    Request::Enter(Node::Royalty),
    Request::Enter(Node::Profile),
    Request::Enter(Node::Pace),
    Request::Enter(Node::Reader),
    Request::Mark(Node::File, IDENTITY_FULL),
    Request::Mark(Node::File, TURNS_FULL),
];

/// On Tuesday the steps are added, and the flows drawn.
pub fn tuesday() -> [Request; 8] {
    [
        Request::Add(Step::CountedByChapter),
        Request::Add(Step::ByRegionAlone),
        draw(Node::File, Node::Layout, Step::CountedByChapter),
        draw(Node::File, Node::Royalty, Step::AsItIs),
        draw(Node::File, Node::Profile, Step::AsItIs),
        draw(Node::Layout, Node::Pace, Step::AsItIs),
        draw(Node::Layout, Node::Reader, Step::AsItIs),
        draw(Node::Profile, Node::Reader, Step::AsItIs),
    ]
}

/// On Thursday the jobs are judged.
pub const THURSDAY: [Request; 6] = [
    Request::Judge(Node::Layout),
    Request::Settle,
    Request::Judge(Node::Layout),
    Request::Judge(Node::Royalty),
    Request::Judge(Node::Pace),
    Request::Judge(Node::Reader),
];

/// On Friday the paths of what the readers' job was refused for are asked for; then the profiles reach it by region alone.
pub fn friday(heap: Global, evidence: u64) -> Result<Vec<Request>, AllocError> {
    let mut requests = Vec::with_capacity(heap, evidence.count_ones() as usize + 5)?;
    requests.extend(bitset::values(evidence).map(|value| Request::Path(Node::Reader, value)))?;
    requests.extend_from_slice(&[
        Request::Strike(Flow {
            from: Node::Profile,
            to: Node::Reader,
            step: Step::AsItIs,
        }),
        draw(Node::Profile, Node::Reader, Step::ByRegionAlone),
        Request::Judge(Node::Reader),
        Request::Settle,
        Request::Judge(Node::Reader),
    ])?;
    Ok(requests)
}
