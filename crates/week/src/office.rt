//! What the privacy office hands over: the tables of its four attributes, and its policy in words.
use lattice::{Ladder, Lattice, Pair, Refusal, Scheme, Table};
use policy::{Policy, Vocabulary};

/// The lattices of the office: a data type is a kind of data with its state.
pub type Office = Scheme<Table, Table, Table, Pair<Table, Ladder>>;

// Nothing, and anything.
const TWO: [u64; 2] = [0b11, 0b10];
// Nothing, two that are unrelated, and anything.
const DIAMOND: [u64; 4] = [0b1111, 0b1010, 0b1100, 0b1000];
// No full reader identity for adverts, except coarse.
const POLICY: [u32; 8] = [
    0x2000_0000,
    0x3100_0002,
    0x3300_0002,
    0x4000_0000,
    0x1000_0000,
    0x3300_0001,
    0x5000_0000,
    0x5000_0000,
];

/// The four lattices, or why one of them is none.
pub fn scheme() -> Result<Office, Refusal> {
    let kinds = Table::try_from(&DIAMOND[..])?;
    let states = Ladder::new(3)?;
    lattice::fits(&kinds, &states)?;
    Ok(Scheme {
        store: Table::try_from(&TWO[..])?,
        purpose: Table::try_from(&DIAMOND[..])?,
        role: Table::try_from(&TWO[..])?,
        types: Pair {
            first: kinds,
            second: states,
        },
    })
}

/// Shows what becomes of rows that are no lattice.
pub fn show_refused_rows(rt: &impl Print) -> anyhow::Result<()> {
    println!(rt; "Rows that are no lattice")?;
    let mut table = Table::new();
    if let Err(refusal) = table.read(&[0b1111, 0b1010, 0b1100]) {
        println!(rt; "  a row too few: {refusal}")?;
    }
    if let Err(refusal) = table.read(&[0b1111, 0b1110, 0b1110, 0b1000]) {
        println!(rt; "  two values below each other: {refusal}")?;
    }
    println!(rt; "  the table still has {} values", table.size())?;
    Ok(())
}

pub fn show_scheme(rt: &impl Print, scheme: &Office) -> anyhow::Result<()> {
    let sizes = scheme.sizes();
    println!(rt; "The lattices")?;
    println!(rt; "  InStore: {} values", sizes.store)?;
    println!(rt; "  UseForPurpose: {} values", sizes.purpose)?;
    println!(rt; "  AccessByRole: {} values", sizes.role)?;
    println!(rt;
        "  DataType: {} values, of 4 kinds in 3 states",
        sizes.types
    )?;
    Ok(())
}

/// Reads the policy's words, first without the last of them.
pub fn read_policy(rt: &impl Print, policy: &mut Policy, scheme: &Office) -> anyhow::Result<()> {
    println!(rt; "Wednesday, the policy goes in as words")?;
    if let Err(refusal) = policy.read(&POLICY[0..7], scheme) {
        println!(rt; "  7 words: {refusal}")?;
    }
    match policy.read(&POLICY, scheme) {
        Ok(()) => println!(rt; "  8 words: no full reader identity for adverts, coarse excepted")?,
        Err(refusal) => println!(rt; "  8 words: {refusal}")?,
    }
    Ok(())
}
