//! One file's week: its page turns arrive, a layout job counts them, the privacy office's policy goes in, every job is
//! judged by what reaches it, and the owner of a refused job mends it.
#![tactic(auto)]

mod office;
mod requests;
mod show;
mod story;
mod telling;

use inventory::{FlowRecord, NodeRecord};
use office::Office;
use policy::{Policy, Vocabulary};
use requests::Request;
use runs::{Answer, Call};
use std::alloc::{AllocError, Global};
use std::slice;

// The office, and all that was asked of the inventory so far.
#[derive(Drop)]
struct Week {
    scheme: Office,
    policy: Policy,
    calls: Vec<Call>,
}

impl Week {
    // Asks for these too, and gives how many calls there were before.
    fn ask(&mut self, requests: &[Request]) -> Result<usize, AllocError> {
        let before = self.calls.len();
        for request in requests {
            self.calls.push(Call::from(*request))?;
        }
        Ok(before)
    }

    // Makes all the calls from a fresh inventory on: over memory of its own, with room for 8 nodes and 8 flows.
    fn answers(&self, heap: Global) -> Result<Vec<Option<Answer>>, AllocError> {
        runs::run(
            heap,
            self.scheme.sizes(),
            &mut [NodeRecord::default(); 8],
            &mut [FlowRecord::default(); 8],
            &mut [0; 1024],
            slice::from_ref(&self.scheme),
            slice::from_ref(&self.policy),
            self.calls.as_slice(),
        )
    }
}

// Monday and Tuesday, answered in one run: the policy has not been read yet.
fn live_beginning(rt: &HostRuntime, week: &mut Week) -> anyhow::Result<()> {
    let tuesday = requests::tuesday();
    let monday = week.ask(&requests::MONDAY)?;
    let counting = week.ask(&tuesday)?;
    let answers = week.answers(rt.alloc())?;
    println!(rt; "Monday, the file arrives")?;
    telling::tell(rt, &requests::MONDAY, answers.as_slice(), monday)?;
    println!(rt; "Tuesday, the layout job counts turns by chapter")?;
    telling::tell(rt, &tuesday, answers.as_slice(), counting)
}

// Thursday: gives the evidence on which the last job was refused.
fn live_thursday(rt: &HostRuntime, week: &mut Week) -> anyhow::Result<u64> {
    let judging = week.ask(&requests::THURSDAY)?;
    let answers = week.answers(rt.alloc())?;
    println!(rt; "Thursday, every job is judged by what reaches it")?;
    telling::tell(rt, &requests::THURSDAY, answers.as_slice(), judging)?;
    println!(rt; "Friday, passed jobs are started")?;
    telling::start_passed(rt, &requests::THURSDAY, answers.as_slice(), judging)?;
    Ok(match answers.last() {
        Some(Some(Answer::Judged(verdict))) => verdict.evidence,
        _ => 0,
    })
}

// Friday: what a job was refused for on Thursday is asked for.
fn live_friday(rt: &HostRuntime, week: &mut Week, evidence: u64) -> anyhow::Result<()> {
    let friday = requests::friday(rt.alloc(), evidence)?;
    let mending = week.ask(friday.as_slice())?;
    let answers = week.answers(rt.alloc())?;
    println!(rt; "Friday, the refused job is mended")?;
    telling::tell(rt, friday.as_slice(), answers.as_slice(), mending)?;
    telling::start_passed(rt, friday.as_slice(), answers.as_slice(), mending)
}

fn main(rt: HostRuntime) -> anyhow::Result<()> {
    office::show_refused_rows(&rt)?;
    let scheme = match office::scheme() {
        Ok(scheme) => scheme,
        Err(refusal) => {
            println!(rt; "the lattices: {refusal}")?;
            return Ok(());
        }
    };
    office::show_scheme(&rt, &scheme)?;
    // Until Friday there are 22 calls.
    let calls = Vec::with_capacity(rt.alloc(), 22)?;
    let mut week = Week {
        scheme,
        policy: Policy::new(),
        calls,
    };
    live_beginning(&rt, &mut week)?;
    office::read_policy(&rt, &mut week.policy, &week.scheme)?;
    let evidence = live_thursday(&rt, &mut week)?;
    live_friday(&rt, &mut week, evidence)
}
