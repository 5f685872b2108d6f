//! The inventory: what is numbered, what flows where, what is judged, and why calls are refused.
use crate::office::{ADVERTS, ENTER, TOGETHER, office, passed, refused};
use inventory::{FlowRecord, Inventory, NodeRecord};
use lattice::{Layer, Reason, Refusal, Sizes};
use policy::{Policy, Verdict};
use runs::{Answer, Call};
use std::alloc::Global;
use std::test::Fail;

// Those of the office.
const SIZES: Sizes = Sizes {
    store: 2,
    purpose: 4,
    role: 2,
    types: 7,
};

// Each type becomes its coarse state.
const COARSEN: [u8; 7] = [0, 1, 1, 3, 3, 5, 5];

// A record that an earlier inventory left behind: none of it may be seen.
const NODE: NodeRecord = NodeRecord {
    store: 1,
    purpose: 1,
    role: 1,
    marks: u64::MAX,
    label: u64::MAX,
    verified: true,
};

const FLOW: FlowRecord = FlowRecord {
    from: 1,
    to: 1,
    step: 1,
};

// Memory for four nodes and four flows. Each test makes its own inventory over it: an inventory borrows what it is made of.
fn memory() -> ([NodeRecord; 4], [FlowRecord; 4], [u32; 512]) {
    ([NODE; 4], [FLOW; 4], [7; 512])
}

fn enter_plain(inventory: &mut Inventory, count: usize) -> Result<(), Refusal> {
    for _ in 0..count {
        let _ = inventory.enter(0, 0, 0)?;
    }
    Ok(())
}

// Full identity goes from node 0 to node 1, and from there coarsened to node 2 and back.
fn round_trip(inventory: &mut Inventory) -> Result<(), Refusal> {
    enter_plain(inventory, 3)?;
    let coarsen = inventory.step(&COARSEN)?;
    inventory.mark(0, 2)?;
    inventory.draw(0, 1, 0)?;
    inventory.draw(1, 2, coarsen)?;
    inventory.draw(2, 1, 0)
}

#[test]
fn nodes_and_steps_are_numbered_as_they_come(rt: HostRuntime) -> Result<(), Fail> {
    let (mut nodes, mut flows, mut workspace) = memory();
    let mut inventory = Inventory::new(SIZES, &mut nodes, &mut flows, &mut workspace);
    assert_eq!(rt; inventory.enter(0, 0, 0)?, 0);
    assert_eq!(rt; inventory.enter(0b10, 0b1110, 0b10)?, 1);
    assert_eq!(rt; inventory.step(&COARSEN)?, 1);
    assert_eq!(rt; inventory.step(&COARSEN)?, 2);
    Ok(())
}

#[test]
fn a_path_names_the_flows_that_bring_a_value(rt: HostRuntime) -> Result<(), Fail> {
    let (mut nodes, mut flows, mut workspace) = memory();
    let mut inventory = Inventory::new(SIZES, &mut nodes, &mut flows, &mut workspace);
    round_trip(&mut inventory)?;
    inventory.settle();
    let mut piece = [9; 4];
    assert_eq!(rt; inventory.path(1, 1, &mut piece), Ok(3));
    assert_eq!(rt; piece, [0, 1, 2, 9]);
    assert_eq!(rt; inventory.path(1, 2, &mut piece), Ok(1));
    assert_eq!(rt; piece, [0, 1, 2, 9]);
    Ok(())
}

#[test]
fn a_short_piece_is_refused_and_left(rt: HostRuntime) -> Result<(), Fail> {
    let (mut nodes, mut flows, mut workspace) = memory();
    let mut inventory = Inventory::new(SIZES, &mut nodes, &mut flows, &mut workspace);
    round_trip(&mut inventory)?;
    inventory.settle();
    let mut piece = [9; 2];
    assert_eq!(rt;
        inventory.path(1, 1, &mut piece).err(),
        Some(Reason::ShortPiece.at(0))
    );
    assert_eq!(rt; piece, [9, 9]);
    assert_eq!(rt; inventory.path(2, 1, &mut piece), Ok(2));
    assert_eq!(rt; piece, [0, 1]);
    Ok(())
}

#[test]
fn a_mark_has_a_path_of_no_flow(rt: HostRuntime) -> Result<(), Fail> {
    let (mut nodes, mut flows, mut workspace) = memory();
    let mut inventory = Inventory::new(SIZES, &mut nodes, &mut flows, &mut workspace);
    round_trip(&mut inventory)?;
    inventory.settle();
    assert_eq!(rt; inventory.path(0, 2, &mut []), Ok(0));
    assert_eq!(rt;
        inventory.path(0, 1, &mut []).err(),
        Some(Reason::NotInLabel.at(1))
    );
    Ok(())
}

#[test]
fn nothing_flows_into_a_verified_node(rt: HostRuntime) -> Result<(), Fail> {
    let (mut nodes, mut flows, mut workspace) = memory();
    let mut inventory = Inventory::new(SIZES, &mut nodes, &mut flows, &mut workspace);
    let mut piece = [0; 3];
    round_trip(&mut inventory)?;
    inventory.verify(2, true)?;
    inventory.settle();
    assert_eq!(rt;
        inventory.path(1, 1, &mut piece).err(),
        Some(Reason::NotInLabel.at(1))
    );
    inventory.verify(2, false)?;
    inventory.settle();
    assert_eq!(rt; inventory.path(1, 1, &mut piece), Ok(3));
    Ok(())
}

#[test]
fn a_verified_node_keeps_its_marks_and_sends_them_on(rt: HostRuntime) -> Result<(), Fail> {
    let (mut nodes, mut flows, mut workspace) = memory();
    let mut inventory = Inventory::new(SIZES, &mut nodes, &mut flows, &mut workspace);
    let mut piece = [0; 3];
    round_trip(&mut inventory)?;
    inventory.mark(2, 5)?;
    inventory.verify(2, true)?;
    inventory.settle();
    assert_eq!(rt; inventory.path(2, 5, &mut piece), Ok(0));
    assert_eq!(rt; inventory.path(1, 5, &mut piece), Ok(1));
    assert_eq!(rt; piece, [2, 0, 0]);
    Ok(())
}

#[test]
fn what_is_unmarked_is_gone_everywhere(rt: HostRuntime) -> Result<(), Fail> {
    let (mut nodes, mut flows, mut workspace) = memory();
    let mut inventory = Inventory::new(SIZES, &mut nodes, &mut flows, &mut workspace);
    round_trip(&mut inventory)?;
    inventory.settle();
    assert_eq!(rt; inventory.path(0, 2, &mut []), Ok(0));
    inventory.unmark(0, 2)?;
    inventory.settle();
    assert_eq!(rt;
        inventory.path(0, 2, &mut []).err(),
        Some(Reason::NotInLabel.at(2))
    );
    assert_eq!(rt;
        inventory.path(1, 1, &mut []).err(),
        Some(Reason::NotInLabel.at(1))
    );
    Ok(())
}

#[test]
fn a_step_can_drop_a_value(rt: HostRuntime) -> Result<(), Fail> {
    let (mut nodes, mut flows, mut workspace) = memory();
    let mut inventory = Inventory::new(SIZES, &mut nodes, &mut flows, &mut workspace);
    enter_plain(&mut inventory, 2)?;
    let keep_turns = inventory.step(&[0, 0, 0, 3, 4, 5, 6])?;
    inventory.mark(0, 2)?;
    inventory.mark(0, 4)?;
    inventory.draw(0, 1, keep_turns)?;
    inventory.settle();
    assert_eq!(rt; inventory.path(1, 4, &mut [0]), Ok(1));
    assert_eq!(rt;
        inventory.path(1, 2, &mut [0]).err(),
        Some(Reason::NotInLabel.at(2))
    );
    Ok(())
}

#[test]
fn a_node_may_flow_into_itself(rt: HostRuntime) -> Result<(), Fail> {
    let (mut nodes, mut flows, mut workspace) = memory();
    let mut inventory = Inventory::new(SIZES, &mut nodes, &mut flows, &mut workspace);
    enter_plain(&mut inventory, 1)?;
    let rise = inventory.step(&[0, 2, 3, 4, 5, 6, 1])?;
    inventory.mark(0, 2)?;
    inventory.draw(0, 0, rise)?;
    inventory.settle();
    let mut piece = [9; 6];
    assert_eq!(rt; inventory.path(0, 1, &mut piece), Ok(5));
    assert_eq!(rt; piece, [0, 0, 0, 0, 0, 9]);
    Ok(())
}

#[test]
fn the_last_flow_takes_the_number_of_the_struck_one(rt: HostRuntime) -> Result<(), Fail> {
    let (mut nodes, mut flows, mut workspace) = memory();
    let mut inventory = Inventory::new(SIZES, &mut nodes, &mut flows, &mut workspace);
    let mut piece = [9];
    round_trip(&mut inventory)?;
    inventory.mark(2, 3)?;
    inventory.settle();
    assert_eq!(rt; inventory.path(1, 3, &mut piece), Ok(1));
    assert_eq!(rt; piece, [2]);
    inventory.strike(0, 1, 0)?;
    inventory.settle();
    assert_eq!(rt; inventory.path(1, 3, &mut piece), Ok(1));
    assert_eq!(rt; piece, [0]);
    Ok(())
}

#[test]
fn struck_flows_bring_nothing(rt: HostRuntime) -> Result<(), Fail> {
    let (mut nodes, mut flows, mut workspace) = memory();
    let mut inventory = Inventory::new(SIZES, &mut nodes, &mut flows, &mut workspace);
    round_trip(&mut inventory)?;
    inventory.strike(0, 1, 0)?;
    inventory.settle();
    assert_eq!(rt;
        inventory.path(1, 2, &mut []).err(),
        Some(Reason::NotInLabel.at(2))
    );
    assert_eq!(rt; inventory.strike(0, 1, 0).err(), Some(Reason::NoFlow.at(0)));
    Ok(())
}

#[test]
fn memory_comes_back_with_what_was_written(rt: HostRuntime) -> Result<(), Fail> {
    let (mut nodes, mut flows, mut workspace) = memory();
    let mut inventory = Inventory::new(SIZES, &mut nodes, &mut flows, &mut workspace);
    round_trip(&mut inventory)?;
    inventory.settle();
    let lent = inventory.release();
    assert!(rt; lent.nodes.len() == 4);
    assert_eq!(rt; lent.nodes[0].label, 0b100);
    assert_eq!(rt; lent.nodes[1].label, 0b110);
    assert_eq!(rt; lent.nodes[2].label, 0b10);
    assert_eq!(rt; lent.nodes[3].label, u64::MAX);
    Ok(())
}

#[test]
fn flows_come_back_in_their_order(rt: HostRuntime) -> Result<(), Fail> {
    let (mut nodes, mut flows, mut workspace) = memory();
    let mut inventory = Inventory::new(SIZES, &mut nodes, &mut flows, &mut workspace);
    round_trip(&mut inventory)?;
    inventory.strike(0, 1, 0)?;
    let flows = inventory.release().flows;
    assert!(rt; flows.len() == 4);
    assert_eq!(rt; (flows[0].from, flows[0].to, flows[0].step), (2, 1, 0));
    assert_eq!(rt; (flows[1].from, flows[1].to, flows[1].step), (1, 2, 1));
    Ok(())
}

#[test]
fn inventory_refusals_are_17_to_26(rt: HostRuntime) {
    assert_eq!(rt; Reason::NoNode.number(), 17);
    assert_eq!(rt; Reason::NoStep.number(), 18);
    assert_eq!(rt; Reason::BadArgument.number(), 19);
    assert_eq!(rt; Reason::FlowStands.number(), 20);
    assert_eq!(rt; Reason::NoFlow.number(), 21);
    assert_eq!(rt; Reason::NoRoom.number(), 22);
    assert_eq!(rt; Reason::Unsettled.number(), 23);
    assert_eq!(rt; Reason::SizesDiffer.number(), 24);
    assert_eq!(rt; Reason::NotInLabel.number(), 25);
    assert_eq!(rt; Reason::ShortPiece.number(), 26);
}

#[test]
fn inventory_refusals_have_a_layer(rt: HostRuntime) {
    assert_eq!(rt; Reason::NoNode.layer(), Layer::Inventory);
    assert_eq!(rt; Reason::ShortPiece.layer(), Layer::Inventory);
}

#[test]
fn nodes_that_are_not_there_are_refused(rt: HostRuntime) -> Result<(), Fail> {
    let (mut nodes, mut flows, mut workspace) = memory();
    let mut inventory = Inventory::new(SIZES, &mut nodes, &mut flows, &mut workspace);
    assert_eq!(rt; inventory.mark(0, 1).err(), Some(Reason::NoNode.at(0)));
    enter_plain(&mut inventory, 2)?;
    assert_eq!(rt; inventory.mark(2, 1).err(), Some(Reason::NoNode.at(2)));
    assert_eq!(rt; inventory.unmark(3, 1).err(), Some(Reason::NoNode.at(3)));
    assert_eq!(rt; inventory.verify(4, true).err(), Some(Reason::NoNode.at(4)));
    assert_eq!(rt;
        inventory.path(5, 1, &mut []).err(),
        Some(Reason::NoNode.at(5))
    );
    Ok(())
}

#[test]
fn a_flow_from_no_node_is_refused_for_that_end_first(rt: HostRuntime) -> Result<(), Fail> {
    let (mut nodes, mut flows, mut workspace) = memory();
    let mut inventory = Inventory::new(SIZES, &mut nodes, &mut flows, &mut workspace);
    enter_plain(&mut inventory, 2)?;
    assert_eq!(rt; inventory.draw(3, 2, 9).err(), Some(Reason::NoNode.at(3)));
    assert_eq!(rt; inventory.draw(1, 2, 9).err(), Some(Reason::NoNode.at(2)));
    assert_eq!(rt;
        inventory.strike(65536, 2, 9).err(),
        Some(Reason::NoNode.at(65536))
    );
    assert_eq!(rt;
        inventory.strike(0, 65537, 9).err(),
        Some(Reason::NoNode.at(65537))
    );
    Ok(())
}

#[test]
fn steps_that_are_not_there_are_refused(rt: HostRuntime) -> Result<(), Fail> {
    let (mut nodes, mut flows, mut workspace) = memory();
    let mut inventory = Inventory::new(SIZES, &mut nodes, &mut flows, &mut workspace);
    enter_plain(&mut inventory, 2)?;
    assert_eq!(rt; inventory.draw(0, 1, 1).err(), Some(Reason::NoStep.at(1)));
    assert_eq!(rt;
        inventory.strike(0, 1, 256).err(),
        Some(Reason::NoStep.at(256))
    );
    let coarsen = inventory.step(&COARSEN)?;
    assert_eq!(rt; inventory.draw(0, 1, coarsen).err(), None);
    Ok(())
}

#[test]
fn declared_sets_have_values_past_the_bottom(rt: HostRuntime) {
    let (mut nodes, mut flows, mut workspace) = memory();
    let mut inventory = Inventory::new(SIZES, &mut nodes, &mut flows, &mut workspace);
    let bad = Some(Reason::BadArgument.at(0));
    assert_eq!(rt; inventory.enter(0b1, 0, 0).err(), bad);
    assert_eq!(rt; inventory.enter(0b100, 0, 0).err(), bad);
    assert_eq!(rt; inventory.enter(0, 0b10000, 0).err(), bad);
    assert_eq!(rt; inventory.enter(0, 0b11, 0).err(), bad);
    assert_eq!(rt; inventory.enter(0, 0, 1 << 63).err(), bad);
    assert_eq!(rt; inventory.enter(0b10, 0b1110, 0b10), Ok(0));
}

#[test]
fn rows_have_a_value_for_each_value_and_keep_the_bottom(rt: HostRuntime) {
    let (mut nodes, mut flows, mut workspace) = memory();
    let mut inventory = Inventory::new(SIZES, &mut nodes, &mut flows, &mut workspace);
    let bad = Some(Reason::BadArgument.at(0));
    assert_eq!(rt; inventory.step(&[]).err(), bad);
    assert_eq!(rt; inventory.step(&[0, 1, 1, 3, 3, 5]).err(), bad);
    assert_eq!(rt; inventory.step(&[0, 1, 1, 3, 3, 5, 5, 0]).err(), bad);
    assert_eq!(rt; inventory.step(&[0, 1, 1, 3, 3, 5, 7]).err(), bad);
    assert_eq!(rt; inventory.step(&[1, 1, 1, 3, 3, 5, 5]).err(), bad);
    assert_eq!(rt; inventory.step(&[0; 7]), Ok(1));
}

#[test]
fn marks_and_paths_are_of_values_past_the_bottom(rt: HostRuntime) -> Result<(), Fail> {
    let (mut nodes, mut flows, mut workspace) = memory();
    let mut inventory = Inventory::new(SIZES, &mut nodes, &mut flows, &mut workspace);
    let bad = Some(Reason::BadArgument.at(0));
    enter_plain(&mut inventory, 1)?;
    assert_eq!(rt; inventory.mark(0, 0).err(), bad);
    assert_eq!(rt; inventory.mark(0, 7).err(), bad);
    assert_eq!(rt; inventory.unmark(0, 255).err(), bad);
    inventory.settle();
    assert_eq!(rt; inventory.path(0, 0, &mut []).err(), bad);
    assert_eq!(rt; inventory.path(0, 7, &mut []).err(), bad);
    Ok(())
}

#[test]
fn a_flow_stands_once(rt: HostRuntime) -> Result<(), Fail> {
    let (mut nodes, mut flows, mut workspace) = memory();
    let mut inventory = Inventory::new(SIZES, &mut nodes, &mut flows, &mut workspace);
    round_trip(&mut inventory)?;
    assert_eq!(rt;
        inventory.draw(0, 1, 0).err(),
        Some(Reason::FlowStands.at(0))
    );
    assert_eq!(rt; inventory.strike(1, 0, 0).err(), Some(Reason::NoFlow.at(0)));
    assert_eq!(rt; inventory.strike(0, 1, 1).err(), Some(Reason::NoFlow.at(0)));
    assert_eq!(rt; inventory.draw(0, 1, 1).err(), None);
    // There is no room any more, but that is asked after the flow.
    assert_eq!(rt;
        inventory.draw(0, 1, 0).err(),
        Some(Reason::FlowStands.at(0))
    );
    Ok(())
}

#[test]
fn nodes_have_as_much_room_as_was_lent(rt: HostRuntime) -> Result<(), Fail> {
    let (mut nodes, mut flows, mut workspace) = memory();
    let mut inventory = Inventory::new(SIZES, &mut nodes, &mut flows, &mut workspace);
    enter_plain(&mut inventory, 4)?;
    assert_eq!(rt; inventory.enter(0, 0, 0).err(), Some(Reason::NoRoom.at(0)));
    assert_eq!(rt;
        inventory.enter(1, 0, 0).err(),
        Some(Reason::BadArgument.at(0))
    );
    assert_eq!(rt; inventory.mark(3, 1).err(), None);
    Ok(())
}

#[test]
fn flows_have_as_much_room_as_was_lent(rt: HostRuntime) -> Result<(), Fail> {
    let (mut nodes, mut flows, mut workspace) = memory();
    let mut inventory = Inventory::new(SIZES, &mut nodes, &mut flows, &mut workspace);
    round_trip(&mut inventory)?;
    inventory.draw(2, 2, 0)?;
    assert_eq!(rt; inventory.draw(1, 1, 0).err(), Some(Reason::NoRoom.at(0)));
    inventory.strike(0, 1, 0)?;
    assert_eq!(rt; inventory.draw(1, 1, 0).err(), None);
    Ok(())
}

#[test]
fn steps_are_32_at_most(rt: HostRuntime) -> Result<(), Fail> {
    let (mut nodes, mut flows, mut workspace) = memory();
    let mut inventory = Inventory::new(SIZES, &mut nodes, &mut flows, &mut workspace);
    for _ in 1..31 {
        let _ = inventory.step(&COARSEN)?;
    }
    assert_eq!(rt; inventory.step(&COARSEN), Ok(31));
    assert_eq!(rt; inventory.step(&COARSEN).err(), Some(Reason::NoRoom.at(0)));
    assert_eq!(rt; inventory.step(&[0]).err(), Some(Reason::BadArgument.at(0)));
    Ok(())
}

#[test]
fn sizes_below_2_become_2(rt: HostRuntime) {
    let (mut nodes, mut flows, mut workspace) = memory();
    let sizes = Sizes {
        store: 0,
        purpose: 1,
        role: 2,
        types: 1,
    };
    let mut inventory = Inventory::new(sizes, &mut nodes, &mut flows, &mut workspace);
    assert_eq!(rt; inventory.enter(0b10, 0b10, 0b10), Ok(0));
    assert!(rt; inventory.enter(0b100, 0, 0).is_err());
    assert!(rt; inventory.enter(0, 0b100, 0).is_err());
    assert_eq!(rt; inventory.step(&[0, 1]), Ok(1));
    assert_eq!(rt; inventory.mark(0, 2).err(), Some(Reason::BadArgument.at(0)));
    assert_eq!(rt; inventory.mark(0, 1).err(), None);
}

#[test]
fn sizes_past_64_become_64(rt: HostRuntime) {
    let (mut nodes, mut flows, mut workspace) = memory();
    let sizes = Sizes {
        store: 65,
        purpose: 255,
        role: 64,
        types: 65,
    };
    let mut inventory = Inventory::new(sizes, &mut nodes, &mut flows, &mut workspace);
    assert_eq!(rt; inventory.enter(u64::MAX - 1, u64::MAX - 1, 1 << 63), Ok(0));
    assert_eq!(rt; inventory.mark(0, 63).err(), None);
    assert_eq!(rt;
        inventory.mark(0, 64).err(),
        Some(Reason::BadArgument.at(0))
    );
    assert_eq!(rt;
        inventory.step(&[0; 65]).err(),
        Some(Reason::BadArgument.at(0))
    );
    assert_eq!(rt; inventory.step(&[0; 64]), Ok(1));
}

// How many of three nodes find room with so much workspace: all three are tried.
fn room_with(workspace: &mut [u32]) -> usize {
    let mut nodes = [NODE; 3];
    let mut inventory = Inventory::new(SIZES, &mut nodes, &mut [], workspace);
    (0..3)
        .filter(|number| inventory.enter(0, 0, 0) == Ok(*number))
        .count()
}

#[test]
fn a_node_takes_128_words_of_workspace(rt: HostRuntime) {
    assert_eq!(rt; room_with(&mut []), 0);
    assert_eq!(rt; room_with(&mut [0; 127]), 0);
    assert_eq!(rt; room_with(&mut [0; 128]), 1);
    assert_eq!(rt; room_with(&mut [0; 255]), 1);
    assert_eq!(rt; room_with(&mut [0; 256]), 2);
    assert_eq!(rt; room_with(&mut [0; 1024]), 3);
}

#[test]
fn what_was_changed_has_to_be_settled(rt: HostRuntime) -> Result<(), Fail> {
    let (mut nodes, mut flows, mut workspace) = memory();
    let mut inventory = Inventory::new(SIZES, &mut nodes, &mut flows, &mut workspace);
    let scheme = office()?;
    let mut policy = Policy::new();
    policy.read(&ADVERTS, &scheme)?;
    round_trip(&mut inventory)?;
    let unsettled = Some(Reason::Unsettled.at(0));
    assert_eq!(rt; inventory.judge(0, &scheme, &policy).err(), unsettled);
    assert_eq!(rt; inventory.path(0, 2, &mut []).err(), unsettled);
    inventory.settle();
    assert!(rt; inventory.judge(0, &scheme, &policy).is_ok());
    assert_eq!(rt; inventory.path(0, 2, &mut []), Ok(0));
    Ok(())
}

#[test]
fn every_change_unsettles(rt: HostRuntime) -> Result<(), Fail> {
    let (mut nodes, mut flows, mut workspace) = memory();
    let mut inventory = Inventory::new(SIZES, &mut nodes, &mut flows, &mut workspace);
    let unsettled = Some(Reason::Unsettled.at(0));
    round_trip(&mut inventory)?;
    inventory.settle();
    inventory.unmark(1, 1)?;
    assert_eq!(rt; inventory.path(0, 2, &mut []).err(), unsettled);
    inventory.settle();
    inventory.verify(1, false)?;
    assert_eq!(rt; inventory.path(0, 2, &mut []).err(), unsettled);
    inventory.settle();
    let _ = inventory.step(&COARSEN)?;
    assert_eq!(rt; inventory.path(0, 2, &mut []).err(), unsettled);
    Ok(())
}

#[test]
fn refused_calls_change_nothing(rt: HostRuntime) -> Result<(), Fail> {
    let (mut nodes, mut flows, mut workspace) = memory();
    let mut inventory = Inventory::new(SIZES, &mut nodes, &mut flows, &mut workspace);
    round_trip(&mut inventory)?;
    inventory.settle();
    assert!(rt; inventory.enter(1, 0, 0).is_err());
    assert!(rt; inventory.step(&[]).is_err());
    assert!(rt; inventory.mark(0, 0).is_err());
    assert!(rt; inventory.draw(0, 1, 0).is_err());
    assert!(rt; inventory.strike(0, 2, 0).is_err());
    assert_eq!(rt; inventory.path(1, 1, &mut [0; 3]), Ok(3));
    Ok(())
}

#[test]
fn scheme_and_policy_have_the_sizes_of_the_inventory(rt: HostRuntime) -> Result<(), Fail> {
    let (mut nodes, mut flows, mut workspace) = memory();
    let mut inventory = Inventory::new(SIZES, &mut nodes, &mut flows, &mut workspace);
    let scheme = office()?;
    enter_plain(&mut inventory, 1)?;
    assert_eq!(rt;
        inventory.judge(0, &scheme, &Policy::new()).err(),
        Some(Reason::Unsettled.at(0))
    );
    inventory.settle();
    assert_eq!(rt;
        inventory.judge(0, &scheme, &Policy::new()).err(),
        Some(Reason::SizesDiffer.at(0))
    );
    assert_eq!(rt;
        inventory.judge(1, &scheme, &Policy::new()).err(),
        Some(Reason::NoNode.at(1))
    );
    Ok(())
}

#[test]
fn an_inventory_of_other_sizes_is_not_judged(rt: HostRuntime) -> Result<(), Fail> {
    let (mut nodes, mut flows, mut workspace) = memory();
    let sizes = Sizes { types: 8, ..SIZES };
    let mut inventory = Inventory::new(sizes, &mut nodes, &mut flows, &mut workspace);
    let scheme = office()?;
    let mut policy = Policy::new();
    policy.read(&ADVERTS, &scheme)?;
    enter_plain(&mut inventory, 1)?;
    inventory.settle();
    assert_eq!(rt;
        inventory.judge(0, &scheme, &policy).err(),
        Some(Reason::SizesDiffer.at(0))
    );
    Ok(())
}

// The verdict on a job with a purpose, to which the marks of another node flow by a step.
fn verdict(words: &[u32], purpose: u64, row: &[u8], marks: &[u8]) -> Result<Verdict, Refusal> {
    let (mut nodes, mut flows, mut workspace) = memory();
    let mut inventory = Inventory::new(SIZES, &mut nodes, &mut flows, &mut workspace);
    let scheme = office()?;
    let mut policy = Policy::new();
    policy.read(words, &scheme)?;
    enter_plain(&mut inventory, 1)?;
    let job = inventory.enter(0, purpose, 0)?;
    let step = inventory.step(row)?;
    for value in marks {
        inventory.mark(0, *value)?;
    }
    inventory.draw(0, job, step)?;
    inventory.settle();
    inventory.judge(job, &scheme, &policy)
}

const KEEP: [u8; 7] = [0, 1, 2, 3, 4, 5, 6];

#[test]
fn full_identity_that_flows_to_adverts_is_refused(rt: HostRuntime) -> Result<(), Fail> {
    assert_eq!(rt; verdict(&ADVERTS, 0b100, &KEEP, &[2])?, refused(0, 0b100));
    assert_eq!(rt;
        verdict(&ADVERTS, 0b100, &KEEP, &[1, 2])?,
        refused(0, 0b100)
    );
    assert_eq!(rt; verdict(&ADVERTS, 0, &KEEP, &[2])?, refused(0, 0b100));
    assert_eq!(rt; verdict(&ADVERTS, 0b10, &KEEP, &[2])?, passed(0));
    Ok(())
}

#[test]
fn coarsened_identity_passes(rt: HostRuntime) -> Result<(), Fail> {
    assert_eq!(rt; verdict(&ADVERTS, 0b100, &COARSEN, &[2])?, passed(1));
    assert_eq!(rt; verdict(&ADVERTS, 0b100, &COARSEN, &[2, 4])?, passed(1));
    assert_eq!(rt; verdict(&ADVERTS, 0b100, &COARSEN, &[4])?, passed(0));
    Ok(())
}

#[test]
fn types_that_meet_are_refused_together(rt: HostRuntime) -> Result<(), Fail> {
    assert_eq!(rt; verdict(&TOGETHER, 0, &KEEP, &[2])?, passed(0));
    assert_eq!(rt; verdict(&TOGETHER, 0, &KEEP, &[2, 4])?, refused(1, 0b10100));
    assert_eq!(rt;
        verdict(&TOGETHER, 0, &KEEP, &[2, 4, 6])?,
        refused(1, 0b1000000)
    );
    assert_eq!(rt; verdict(&TOGETHER, 0, &KEEP, &[])?, passed(0));
    Ok(())
}

#[test]
fn types_meet_where_flows_do(rt: HostRuntime) -> Result<(), Fail> {
    let (mut nodes, mut flows, mut workspace) = memory();
    let mut inventory = Inventory::new(SIZES, &mut nodes, &mut flows, &mut workspace);
    let scheme = office()?;
    let mut policy = Policy::new();
    policy.read(&TOGETHER, &scheme)?;
    enter_plain(&mut inventory, 3)?;
    inventory.mark(0, 2)?;
    inventory.mark(1, 4)?;
    inventory.draw(0, 2, 0)?;
    inventory.draw(1, 2, 0)?;
    inventory.settle();
    assert_eq!(rt; inventory.judge(0, &scheme, &policy)?, passed(0));
    assert_eq!(rt; inventory.judge(1, &scheme, &policy)?, passed(0));
    assert_eq!(rt; inventory.judge(2, &scheme, &policy)?, refused(1, 0b10100));
    Ok(())
}

// The answers of a run with one scheme, the office's, and one policy, on adverts.
fn answers(heap: Global, calls: &[Call]) -> Result<Vec<Option<Answer>>, Fail> {
    let (mut nodes, mut flows, mut workspace) = memory();
    let scheme = office()?;
    let mut policy = Policy::new();
    policy.read(&ADVERTS, &scheme)?;
    let all = runs::run(
        heap,
        SIZES,
        &mut nodes,
        &mut flows,
        &mut workspace,
        &[scheme],
        &[policy],
        calls,
    )?;
    Ok(all)
}

// Each type becomes its coarse state, by the first so many entries of a row.
fn coarsen(len: usize) -> Call {
    let mut row = [0; 64];
    row[0..7].copy_from_slice(&COARSEN);
    Call::Step { row, len }
}

#[test]
fn a_run_answers_each_call(rt: HostRuntime) -> Result<(), Fail> {
    let calls = [
        ENTER,
        coarsen(7),
        Call::Mark { node: 0, value: 2 },
        Call::Draw {
            from: 0,
            to: 0,
            step: 1,
        },
        Call::Settle,
        Call::Path {
            node: 0,
            value: 1,
            room: 3,
        },
    ];
    let all = answers(rt.alloc(), &calls)?;
    assert!(rt; matches!(all.get(0), Some(Some(Answer::Numbered(0)))));
    assert!(rt; matches!(all.get(1), Some(Some(Answer::Numbered(1)))));
    assert!(rt; matches!(all.get(2), Some(Some(Answer::Done))));
    assert!(rt; matches!(all.get(5), Some(Some(Answer::Shown(flows))) if flows.len() == 1));
    assert!(rt; all.get(6).is_none());
    Ok(())
}

#[test]
fn a_run_judges_by_what_was_handed_over(rt: HostRuntime) -> Result<(), Fail> {
    let judge = Call::Judge {
        node: 0,
        scheme: 0,
        policy: 0,
    };
    let calls = [
        Call::Enter {
            store: 0,
            purpose: 0b100,
            role: 0,
        },
        Call::Mark { node: 0, value: 2 },
        judge,
        Call::Settle,
        judge,
        Call::Judge {
            node: 0,
            scheme: 1,
            policy: 0,
        },
        Call::Judge {
            node: 0,
            scheme: 0,
            policy: 1,
        },
        judge,
    ];
    let all = answers(rt.alloc(), &calls)?;
    let unsettled = Reason::Unsettled.at(0);
    assert!(rt;
        matches!(all.get(2), Some(Some(Answer::Refused(refusal))) if *refusal == unsettled)
    );
    assert!(rt;
        matches!(all.get(4), Some(Some(Answer::Judged(verdict))) if *verdict == refused(0, 0b100))
    );
    assert!(rt; matches!(all.get(5), Some(None)));
    assert!(rt; matches!(all.get(6), Some(None)));
    assert!(rt;
        matches!(all.get(7), Some(Some(Answer::Judged(verdict))) if *verdict == refused(0, 0b100))
    );
    Ok(())
}

#[test]
fn a_run_takes_back_what_it_did(rt: HostRuntime) -> Result<(), Fail> {
    let path = Call::Path {
        node: 0,
        value: 2,
        room: 0,
    };
    let calls = [
        ENTER,
        Call::Mark { node: 0, value: 2 },
        Call::Draw {
            from: 0,
            to: 0,
            step: 0,
        },
        Call::Strike {
            from: 0,
            to: 0,
            step: 0,
        },
        Call::Verify {
            node: 0,
            verified: true,
        },
        Call::Settle,
        path,
        Call::Unmark { node: 0, value: 2 },
        Call::Settle,
        path,
    ];
    let all = answers(rt.alloc(), &calls)?;
    let gone = Reason::NotInLabel.at(2);
    assert!(rt; matches!(all.get(3), Some(Some(Answer::Done))));
    assert!(rt; matches!(all.get(4), Some(Some(Answer::Done))));
    assert!(rt; matches!(all.get(6), Some(Some(Answer::Shown(flows))) if flows.is_empty()));
    assert!(rt; matches!(all.get(7), Some(Some(Answer::Done))));
    assert!(rt; matches!(all.get(9), Some(Some(Answer::Refused(refusal))) if *refusal == gone));
    Ok(())
}

#[test]
fn a_run_takes_rows_of_64_at_most(rt: HostRuntime) -> Result<(), Fail> {
    let calls = [coarsen(99), coarsen(6), coarsen(7)];
    let all = answers(rt.alloc(), &calls)?;
    let bad = Reason::BadArgument.at(0);
    assert!(rt; matches!(all.get(0), Some(Some(Answer::Refused(refusal))) if *refusal == bad));
    assert!(rt; matches!(all.get(1), Some(Some(Answer::Refused(refusal))) if *refusal == bad));
    assert!(rt; matches!(all.get(2), Some(Some(Answer::Numbered(1)))));
    Ok(())
}

#[test]
fn nodes_are_4096_at_most(rt: HostRuntime) -> Result<(), Fail> {
    let mut nodes = vec![in rt.alloc(); NODE; 4097]?;
    let mut workspace = vec![in rt.alloc(); 0u32; 524416]?;
    let mut inventory = Inventory::new(
        SIZES,
        nodes.as_mut_slice(),
        &mut [],
        workspace.as_mut_slice(),
    );
    enter_plain(&mut inventory, 4096)?;
    assert_eq!(rt; inventory.enter(0, 0, 0).err(), Some(Reason::NoRoom.at(0)));
    Ok(())
}

// A flow from this node to each of so many.
fn draw_from(inventory: &mut Inventory, from: usize, count: usize) -> Result<(), Refusal> {
    (0..count).try_for_each(|to| inventory.draw(from, to, 0))
}

// A flow from each of the nodes to each of them.
fn draw_all(inventory: &mut Inventory, count: usize) -> Result<(), Refusal> {
    (0..count).try_for_each(|from| draw_from(inventory, from, count))
}

#[test]
fn flows_are_16384_at_most(rt: HostRuntime) -> Result<(), Fail> {
    let mut nodes = vec![in rt.alloc(); NODE; 128]?;
    let mut flows = vec![in rt.alloc(); FLOW; 16385]?;
    let mut workspace = vec![in rt.alloc(); 0u32; 16384]?;
    let mut inventory = Inventory::new(
        SIZES,
        nodes.as_mut_slice(),
        flows.as_mut_slice(),
        workspace.as_mut_slice(),
    );
    enter_plain(&mut inventory, 128)?;
    draw_all(&mut inventory, 128)?;
    let coarsen = inventory.step(&COARSEN)?;
    assert_eq!(rt;
        inventory.draw(0, 0, coarsen).err(),
        Some(Reason::NoRoom.at(0))
    );
    Ok(())
}
