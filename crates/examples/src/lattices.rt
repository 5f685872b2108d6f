//! Lattices: what they answer, and why rows, levels and pairs are refused.
use lattice::{Attribute, Ladder, Lattice, Layer, Pair, Reason, Refusal, Table, bitset};
use std::test::Fail;

// Three values between the bottom and the top, none of them below another.
const DIAMOND: [u64; 5] = [0b11111, 0b10010, 0b10100, 0b11000, 0b10000];

fn refused(rows: &[u64]) -> Option<Refusal> {
    Table::new().read(rows).err()
}

#[test]
fn attributes_have_words_and_numbers(rt: HostRuntime) {
    assert_eq!(rt; Attribute::named("InStore"), Some(Attribute::InStore));
    assert_eq!(rt; Attribute::named("DataType"), Some(Attribute::DataType));
    assert_eq!(rt; Attribute::named("datatype"), None);
    assert_eq!(rt; Attribute::UseForPurpose.number(), 1);
    assert_eq!(rt; Attribute::AccessByRole.number(), 2);
}

#[test]
fn sets_are_bits(rt: HostRuntime) {
    assert_eq!(rt; bitset::insert(0b100, 1), 0b110);
    assert_eq!(rt; bitset::insert(0b100, 64), 0b100);
    assert_eq!(rt; bitset::remove(0b110, 2), 0b010);
    assert!(rt; bitset::contains(1 << 63, 63));
    assert!(rt; !bitset::contains(u64::MAX, 64));
}

#[test]
fn values_of_a_set_rise(rt: HostRuntime) -> Result<(), Fail> {
    let some: Vec<u8> = bitset::values(0b10110).collect(rt.alloc())?;
    assert_eq!(rt; some.as_slice(), [1, 2, 4].as_slice());
    assert_eq!(rt; bitset::values(0).next(), None);
    assert_eq!(rt; bitset::values(1 << 63).next(), Some(63));
    Ok(())
}

#[test]
fn ladders_have_the_order_of_numbers(rt: HostRuntime) -> Result<(), Fail> {
    let l = Ladder::new(6)?;
    assert_eq!(rt; l.size(), 6);
    assert_eq!(rt; l.meet(3, 5), Some(3));
    assert_eq!(rt; l.join(3, 5), Some(5));
    assert_eq!(rt; l.meet(3, 6), None);
    assert!(rt; l.below(3, 5));
    assert!(rt; !l.below(5, 3));
    assert!(rt; !l.below(3, 6));
    Ok(())
}

#[test]
fn ladders_have_2_to_64_levels(rt: HostRuntime) {
    assert!(rt; Ladder::new(2).is_ok());
    assert!(rt; Ladder::new(64).is_ok());
    assert_eq!(rt; Ladder::new(1).err(), Some(Reason::LadderSize.at(0)));
    assert_eq!(rt; Ladder::new(65).err(), Some(Reason::LadderSize.at(0)));
}

#[test]
fn tables_answer_by_their_rows(rt: HostRuntime) -> Result<(), Fail> {
    let mut t = Table::new();
    assert_eq!(rt; t.size(), 2);
    t.read(&DIAMOND)?;
    assert_eq!(rt; t.size(), 5);
    assert_eq!(rt; t.meet(1, 2), Some(0));
    assert_eq!(rt; t.join(1, 3), Some(4));
    assert_eq!(rt; t.meet(4, 3), Some(3));
    assert_eq!(rt; t.join(0, 2), Some(2));
    assert_eq!(rt; t.join(0, 5), None);
    Ok(())
}

#[test]
fn refused_rows_leave_the_table(rt: HostRuntime) -> Result<(), Fail> {
    let mut t = Table::new();
    t.read(&DIAMOND)?;
    assert!(rt; t.read(&[0b1]).is_err());
    assert_eq!(rt; t.size(), 5);
    Ok(())
}

#[test]
fn rows_that_are_no_lattice_are_refused(rt: HostRuntime) {
    assert_eq!(rt; refused(&[0b1]), Some(Reason::RowCount.at(0)));
    assert_eq!(rt; refused(&[1; 65]), Some(Reason::RowCount.at(0)));
    assert_eq!(rt; refused(&[0b11, 0b110]), Some(Reason::StrayBit.at(1)));
    assert_eq!(rt; refused(&[0b11, 0b00]), Some(Reason::NotReflexive.at(1)));
    assert_eq!(rt;
        refused(&[0b11, 0b11]),
        Some(Reason::NotAntisymmetric.at(0))
    );
    assert_eq!(rt;
        refused(&[0b011, 0b110, 0b100]),
        Some(Reason::NotTransitive.at(0))
    );
    assert_eq!(rt;
        refused(&[0b101, 0b010, 0b100]),
        Some(Reason::NotBounded.at(1))
    );
    // 1 and 2 are both below 3 and 4, neither of which is below the other
    assert_eq!(rt;
        refused(&[0b111111, 0b111010, 0b111100, 0b101000, 0b110000, 0b100000]),
        Some(Reason::NoJoin.at(1))
    );
}

#[test]
fn pairs_have_both_parts(rt: HostRuntime) -> Result<(), Fail> {
    let both = Pair {
        first: Ladder::new(3)?,
        second: Ladder::new(4)?,
    };
    // (1, 1) is 1, (1, 3) is 3, (2, 1) is 4, (2, 3) is 6
    assert_eq!(rt; both.size(), 7);
    assert_eq!(rt; both.join(3, 4), Some(6));
    assert_eq!(rt; both.meet(3, 4), Some(1));
    assert_eq!(rt; both.meet(0, 4), Some(0));
    assert_eq!(rt; both.join(0, 4), Some(4));
    let nested = Pair {
        first: both,
        second: Table::new(),
    };
    assert_eq!(rt; nested.size(), 7);
    assert_eq!(rt; nested.meet(3, 4), Some(1));
    Ok(())
}

#[test]
fn pairs_have_64_values_at_most(rt: HostRuntime) -> Result<(), Fail> {
    let ten = Ladder::new(10)?;
    assert!(rt; lattice::fits(&ten, &Ladder::new(8)?).is_ok());
    assert_eq!(rt;
        lattice::fits(&ten, &Ladder::new(9)?).err(),
        Some(Reason::PairSize.at(0))
    );
    let wide = Pair {
        first: ten,
        second: Ladder::new(9)?,
    };
    assert_eq!(rt; wide.size(), 2);
    Ok(())
}

#[test]
fn refusals_have_numbers_and_layers(rt: HostRuntime) {
    assert_eq!(rt; Reason::RowCount.number(), 1);
    assert_eq!(rt; Reason::PairSize.layer(), Layer::Lattice);
    assert_eq!(rt; Reason::MisplacedWord.layer(), Layer::Words);
    assert_eq!(rt; Reason::SameKind.layer(), Layer::Clauses);
    assert_eq!(rt; Reason::TooNested.number(), 16);
}
