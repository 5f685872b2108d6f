//! Words: what is read, and why words are refused and where.
use crate::office::{ADVERTS, TOGETHER, office};
use lattice::{Reason, Refusal};
use policy::{Policy, Vocabulary};
use std::alloc::{AllocError, Global};
use std::test::Fail;

const ALLOW: u32 = 0x1000_0000;

const DENY: u32 = 0x2000_0000;

const EXCEPT: u32 = 0x4000_0000;

const END: u32 = 0x5000_0000;

fn refused(words: &[u32]) -> Result<Option<Refusal>, Refusal> {
    let scheme = office()?;
    Ok(Policy::new().read(words, &scheme).err())
}

// Clauses inside one another, so many that the last is this deep; END up to the last of so many words.
fn nested(heap: Global, depth: usize, count: usize) -> Result<Vec<u32>, AllocError> {
    let mut words = Vec::new(heap);
    for level in 0..depth {
        words.push(if level % 2 == 0 { ALLOW } else { DENY })?;
        words.push(EXCEPT)?;
    }
    words.pop();
    words.resize(count, END)?;
    Ok(words)
}

#[test]
fn policies_are_read(rt: HostRuntime) -> Result<(), Fail> {
    assert_eq!(rt; refused(&ADVERTS)?, None);
    assert_eq!(rt; refused(&TOGETHER)?, None);
    assert_eq!(rt; refused(&[DENY, END])?, None);
    Ok(())
}

#[test]
fn a_refused_reading_leaves_the_policy(rt: HostRuntime) -> Result<(), Fail> {
    let scheme = office()?;
    let mut policy = Policy::new();
    policy.read(&ADVERTS, &scheme)?;
    assert!(rt; policy.read(&[DENY], &scheme).is_err());
    assert_eq!(rt; policy.sizes().types, 7);
    Ok(())
}

#[test]
fn words_are_1_to_4096(rt: HostRuntime) -> Result<(), Fail> {
    assert_eq!(rt; refused(&[])?, Some(Reason::WordCount.at(0)));
    assert_eq!(rt; refused(&[END; 4097])?, Some(Reason::WordCount.at(0)));
    assert_eq!(rt; refused(&[END; 4096])?, Some(Reason::MisplacedWord.at(0)));
    Ok(())
}

#[test]
fn words_of_no_kind_are_refused(rt: HostRuntime) -> Result<(), Fail> {
    assert_eq!(rt; refused(&[0])?, Some(Reason::BadWord.at(0)));
    assert_eq!(rt; refused(&[DENY, 0x6000_0000])?, Some(Reason::BadWord.at(1)));
    assert_eq!(rt; refused(&[DENY, 0x3300_0102])?, Some(Reason::BadWord.at(1)));
    assert_eq!(rt; refused(&[DENY, END + 1])?, Some(Reason::BadWord.at(1)));
    Ok(())
}

#[test]
fn words_out_of_place_are_refused(rt: HostRuntime) -> Result<(), Fail> {
    assert_eq!(rt; refused(&[END])?, Some(Reason::MisplacedWord.at(0)));
    assert_eq!(rt;
        refused(&[DENY, EXCEPT, END])?,
        Some(Reason::MisplacedWord.at(2))
    );
    assert_eq!(rt; refused(&ADVERTS[0..7])?, Some(Reason::MisplacedWord.at(7)));
    assert_eq!(rt;
        refused(&[DENY, END, END])?,
        Some(Reason::MisplacedWord.at(2))
    );
    Ok(())
}

#[test]
fn exceptions_have_the_other_kind(rt: HostRuntime) -> Result<(), Fail> {
    assert_eq!(rt;
        refused(&[DENY, EXCEPT, DENY, END, END])?,
        Some(Reason::SameKind.at(2))
    );
    Ok(())
}

#[test]
fn values_are_those_of_the_lattices(rt: HostRuntime) -> Result<(), Fail> {
    assert_eq!(rt; refused(&[DENY, 0x3300_0006, END])?, None);
    assert_eq!(rt;
        refused(&[DENY, 0x3300_0007, END])?,
        Some(Reason::BadValue.at(1))
    );
    assert_eq!(rt;
        refused(&[DENY, 0x3300_0000, END])?,
        Some(Reason::BadValue.at(1))
    );
    assert_eq!(rt;
        refused(&[DENY, 0x3400_0001, END])?,
        Some(Reason::BadValue.at(1))
    );
    Ok(())
}

#[test]
fn values_rise(rt: HostRuntime) -> Result<(), Fail> {
    assert_eq!(rt;
        refused(&[DENY, 0x3300_0002, 0x3300_0002, END])?,
        Some(Reason::NotRising.at(2))
    );
    assert_eq!(rt;
        refused(&[DENY, 0x3300_0002, 0x3100_0003, END])?,
        Some(Reason::NotRising.at(2))
    );
    Ok(())
}

#[test]
fn clauses_are_16_deep_at_most(rt: HostRuntime) -> Result<(), Fail> {
    let deep = nested(rt.alloc(), 16, 47)?;
    assert_eq!(rt; refused(deep.as_slice())?, None);
    let deeper = nested(rt.alloc(), 17, 64)?;
    assert_eq!(rt; refused(deeper.as_slice())?, Some(Reason::TooNested.at(32)));
    Ok(())
}
