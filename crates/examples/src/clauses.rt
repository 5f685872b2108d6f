//! Clauses: both verdicts, the clause that decides, and the evidence.
use crate::office::{ADVERTS, TOGETHER, office, passed, refused};
use lattice::Refusal;
use policy::{Label, Policy, Verdict};
use std::test::Fail;

fn verdict(words: &[u32], purpose: u64, types: u64) -> Result<Verdict, Refusal> {
    let scheme = office()?;
    let mut policy = Policy::new();
    policy.read(words, &scheme)?;
    let held = Label {
        store: 0,
        purpose,
        role: 0,
        types,
    };
    Ok(policy.judge(&scheme, held.declared(&scheme)))
}

#[test]
fn full_identity_is_refused_for_adverts(rt: HostRuntime) -> Result<(), Fail> {
    assert_eq!(rt; verdict(&ADVERTS, 0b100, 0b100)?, refused(0, 0b100));
    assert_eq!(rt; verdict(&ADVERTS, 0b100, 0b110)?, refused(0, 0b100));
    Ok(())
}

#[test]
fn coarse_identity_and_page_turns_pass(rt: HostRuntime) -> Result<(), Fail> {
    assert_eq!(rt; verdict(&ADVERTS, 0b100, 0b10)?, passed(1));
    assert_eq!(rt; verdict(&ADVERTS, 0b100, 0b10010)?, passed(1));
    assert_eq!(rt; verdict(&ADVERTS, 0b100, 0b10000)?, passed(0));
    Ok(())
}

#[test]
fn purpose_left_out_is_any_purpose(rt: HostRuntime) -> Result<(), Fail> {
    assert_eq!(rt; verdict(&ADVERTS, 0, 0b100)?, refused(0, 0b100));
    assert_eq!(rt; verdict(&ADVERTS, 0b10, 0b100)?, passed(0));
    Ok(())
}

#[test]
fn a_deny_list_applies_where_all_its_values_meet(rt: HostRuntime) -> Result<(), Fail> {
    assert_eq!(rt; verdict(&TOGETHER, 0, 0b100)?, passed(0));
    assert_eq!(rt; verdict(&TOGETHER, 0, 0b10100)?, refused(1, 0b10100));
    assert_eq!(rt; verdict(&TOGETHER, 0, 0b1010100)?, refused(1, 0b1000000));
    assert_eq!(rt; verdict(&TOGETHER, 0, 0)?, passed(0));
    Ok(())
}

#[test]
fn the_starting_policy_refuses_what_holds_anything(rt: HostRuntime) -> Result<(), Fail> {
    let scheme = office()?;
    let held = Label {
        store: 0,
        purpose: 0,
        role: 0,
        types: 0b10,
    };
    let decision = Policy::new().decide(&scheme, held.declared(&scheme));
    assert!(rt; !decision.passed);
    Ok(())
}
