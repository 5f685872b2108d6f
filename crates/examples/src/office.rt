//! What the examples share. The lattices: kinds of data with their states, and purposes; stores and roles are ladders of two.
use lattice::{Ladder, Pair, Refusal, Scheme, Table};
use policy::Verdict;
use runs::Call;

pub type Office = Scheme<Ladder, Table, Ladder, Pair<Table, Ladder>>;

// Nothing, two that are unrelated, and anything. The program week has the same rows and words: it is no library, and lends nothing.
const DIAMOND: [u64; 4] = [0b1111, 0b1010, 0b1100, 0b1000];

pub fn office() -> Result<Office, Refusal> {
    Ok(Scheme {
        store: Ladder::two(),
        purpose: Table::try_from(&DIAMOND[..])?,
        role: Ladder::two(),
        types: Pair {
            first: Table::try_from(&DIAMOND[..])?,
            second: Ladder::new(3)?,
        },
    })
}

/// No full reader identity for adverts, except coarse.
pub const ADVERTS: [u32; 8] = [
    0x2000_0000,
    0x3100_0002,
    0x3300_0002,
    0x4000_0000,
    0x1000_0000,
    0x3300_0001,
    0x5000_0000,
    0x5000_0000,
];

/// Anything, except reader identity and page turns together in full.
pub const TOGETHER: [u32; 7] = [
    0x1000_0000,
    0x4000_0000,
    0x2000_0000,
    0x3300_0002,
    0x3300_0004,
    0x5000_0000,
    0x5000_0000,
];

pub fn passed(clause: usize) -> Verdict {
    Verdict {
        passed: true,
        clause,
        evidence: 0,
    }
}

pub fn refused(clause: usize, evidence: u64) -> Verdict {
    Verdict {
        passed: false,
        clause,
        evidence,
    }
}

/// A node with nothing declared.
pub const ENTER: Call = Call::Enter {
    store: 0,
    purpose: 0,
    role: 0,
};
