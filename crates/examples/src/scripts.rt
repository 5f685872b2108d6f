//! What a command asks for and what is printed for an answer, where memory suffices. Contracts leave the want of memory
//! open, so a function that always gave up would be proved too: here each is seen to succeed.
use crate::office::{ENTER, Office, passed, refused};
use commands::{Command, Verb, answers};
use lattice::{Reason, Sizes};
use policy::Policy;
use runs::{Answer, Call};
use sessions::{Rooms, Session};
use std::alloc::{AllocError, Global};
use std::test::Fail;

const SIZES: Sizes = Sizes {
    store: 2,
    purpose: 2,
    role: 2,
    types: 2,
};

// What is printed for the answer of this number.
fn text_at(
    heap: Global,
    session: &Session,
    calls: &[Call],
    at: usize,
) -> Result<String, AllocError> {
    match (calls.get(at), session.answers.get(at)) {
        (Some(call), Some(Some(answer))) => answers::answer_text(heap, call, answer),
        _ => String::from_str(heap, "no answer"),
    }
}

#[test]
fn what_is_made_is_printed_with_its_size(rt: HostRuntime) -> Result<(), Fail> {
    let size = answers::size_text(rt.alloc(), 7)?;
    assert_eq!(rt; size.as_str(), "size 7");
    let count = answers::count_text(rt.alloc(), 3)?;
    assert_eq!(rt; count.as_str(), "3 clauses");
    let room = answers::room_text(rt.alloc(), 4, 9)?;
    assert_eq!(rt; room.as_str(), "room for 4 nodes and 9 flows");
    Ok(())
}

#[test]
fn refusals_are_printed_with_number_place_layer_and_words(rt: HostRuntime) -> Result<(), Fail> {
    let refusal = Reason::NoNode.at(9);
    let text = answers::refusal_text(rt.alloc(), refusal)?;
    assert_eq!(rt;
        text.as_str(),
        "declined 17 at 9 (inventory): there is no such node"
    );
    Ok(())
}

#[test]
fn sets_are_printed_in_braces(rt: HostRuntime) -> Result<(), Fail> {
    let some = answers::set_text(rt.alloc(), 0b10100)?;
    assert_eq!(rt; some.as_str(), "{2, 4}");
    let last = answers::set_text(rt.alloc(), 1 << 63)?;
    assert_eq!(rt; last.as_str(), "{63}");
    let none = answers::set_text(rt.alloc(), 0)?;
    assert_eq!(rt; none.as_str(), "{}");
    Ok(())
}

#[test]
fn judgements_are_printed(rt: HostRuntime) -> Result<(), Fail> {
    let text = answers::answer_text(rt.alloc(), &Call::Settle, &Answer::Judged(passed(1)))?;
    assert_eq!(rt; text.as_str(), "passed by clause 1");
    let text = answers::answer_text(
        rt.alloc(),
        &Call::Settle,
        &Answer::Judged(refused(0, 0b10100)),
    )?;
    assert_eq!(rt; text.as_str(), "refused by clause 0, evidence {2, 4}");
    Ok(())
}

#[test]
fn arguments_are_read_and_meant(rt: HostRuntime) -> Result<(), Fail> {
    let values = commands::values(rt.alloc(), Verb::Mark, b"1 0x2 # a comment").ok();
    let values = values.ok_or("no values")?;
    assert_eq!(rt; values.as_slice(), [1, 2].as_slice());
    let command = commands::command::meant(rt.alloc(), Verb::Mark, values.as_slice())?;
    let marks = matches!(&command, Command::Call(Call::Mark { node: 1, value: 2 }));
    assert!(rt; marks);
    Ok(())
}

#[test]
fn a_session_answers_every_call(rt: HostRuntime) -> Result<(), Fail> {
    let calls = [
        ENTER,
        ENTER,
        Call::Mark { node: 0, value: 1 },
        Call::Draw {
            from: 0,
            to: 1,
            step: 0,
        },
        Call::Settle,
        Call::Path {
            node: 1,
            value: 1,
            room: 4,
        },
        Call::Path {
            node: 0,
            value: 1,
            room: 0,
        },
    ];
    let rooms = Rooms {
        nodes: 2,
        flows: 1,
        words: 256,
    };
    let schemes: [Office; 0] = [];
    let policies: [Policy; 0] = [];
    let session = sessions::run(rt.alloc(), SIZES, rooms, &schemes, &policies, &calls)?;
    assert_eq!(rt;
        text_at(rt.alloc(), &session, &calls, 1)?.as_str(),
        "node 1"
    );
    assert_eq!(rt; text_at(rt.alloc(), &session, &calls, 3)?.as_str(), "done");
    assert_eq!(rt;
        text_at(rt.alloc(), &session, &calls, 5)?.as_str(),
        "flows 0"
    );
    assert_eq!(rt;
        text_at(rt.alloc(), &session, &calls, 6)?.as_str(),
        "no flow"
    );
    Ok(())
}
