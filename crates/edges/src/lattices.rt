//! Tables, ladders and pairs at their limits.
use crate::outcome::Outcome;
use arrayvec::ArrayVec;
use lattice::{Ladder, Lattice, Refusal, Scheme, Table};

/// A scheme of four ladders.
pub type Ladders = Scheme<Ladder, Ladder, Ladder, Ladder>;

/// The ladders with so many levels.
pub fn ladders(
    store: usize,
    purpose: usize,
    role: usize,
    types: usize,
) -> Result<Ladders, Refusal> {
    Ok(Scheme {
        store: Ladder::new(store)?,
        purpose: Ladder::new(purpose)?,
        role: Ladder::new(role)?,
        types: Ladder::new(types)?,
    })
}

// Reads the rows into a table of five values, and shows its size before and after.
fn show_rows(rt: &impl Print, what: &str, rows: &[u64]) -> anyhow::Result<()> {
    let mut table = Table::new();
    table.read(&[0b11111, 0b10010, 0b10100, 0b11000, 0b10000])?;
    let before = table.size();
    let outcome = Outcome(table.read(rows));
    let after = table.size();
    println!(rt; "{what}: {outcome} size {before} before and {after} after")?;
    Ok(())
}

fn show_ladder(rt: &impl Print, levels: usize) -> anyhow::Result<()> {
    match Ladder::new(levels) {
        Ok(ladder) => println!(rt; "a ladder of {levels}: size {}", ladder.size())?,
        Err(refusal) => println!(rt; "a ladder of {levels}: {refusal}")?,
    }
    Ok(())
}

fn fitting(first: usize, second: usize) -> Result<(), Refusal> {
    let p = Ladder::new(first)?;
    let q = Ladder::new(second)?;
    lattice::fits(&p, &q)
}

fn show_pair(rt: &impl Print, first: usize, second: usize) -> anyhow::Result<()> {
    match fitting(first, second) {
        Ok(()) => println!(rt; "a pair of sizes {first} and {second}: fits")?,
        Err(refusal) => println!(rt; "a pair of sizes {first} and {second}: {refusal}")?,
    }
    Ok(())
}

pub fn show(rt: &impl Print) -> anyhow::Result<()> {
    // The ladder of 64 levels, and a row more than there can be.
    let mut rows = ArrayVec::<u64, 65>::new();
    rows.extend((0..64).map(|level| u64::MAX << level))?;
    show_rows(rt, "64 rows", rows.as_slice())?;
    rows.extend([1])?;
    show_rows(rt, "65 rows", rows.as_slice())?;
    show_rows(rt, "1 row", &[0b1])?;
    show_rows(rt, "a bit past the count", &[0b11, 0b110])?;
    show_rows(rt, "no bit of its own", &[0b11, 0b00])?;
    show_rows(rt, "two values below each other", &[0b111, 0b110, 0b110])?;
    show_rows(rt, "a gap", &[0b1111, 0b0110, 0b1100, 0b1000])?;
    show_rows(rt, "no bottom", &[0b101, 0b110, 0b100])?;
    show_rows(
        rt,
        "two joins",
        &[0b111111, 0b111010, 0b111100, 0b101000, 0b110000, 0b100000],
    )?;
    for levels in [1, 2, 64, 65] {
        show_ladder(rt, levels)?;
    }
    show_pair(rt, 10, 8)?;
    show_pair(rt, 10, 9)
}
