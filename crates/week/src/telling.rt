//! What was asked on a day and what was answered, in words.
use crate::requests::Request;
use crate::show::{DataTypes, Flows};
use policy::Verdict;
use runs::Answer;

fn tell_verdict(rt: &impl Print, verdict: Verdict) -> anyhow::Result<()> {
    let clause = verdict.clause;
    if verdict.passed {
        println!(rt; ": passed by clause {clause}")?;
    } else {
        let evidence = DataTypes(verdict.evidence);
        println!(rt; ": refused by clause {clause}, evidence {evidence}")?;
    }
    Ok(())
}

fn tell_answer(rt: &impl Print, request: Request, answer: Option<&Answer>) -> anyhow::Result<()> {
    match (request, answer) {
        (Request::Enter(_), Some(Answer::Numbered(number))) => println!(rt; ": node {number}")?,
        (_, Some(Answer::Numbered(number))) => println!(rt; ": step {number}")?,
        (_, Some(Answer::Refused(refusal))) => println!(rt; ": {refusal}")?,
        (_, Some(Answer::Done)) => println!(rt; ": done")?,
        (_, Some(Answer::Judged(verdict))) => tell_verdict(rt, *verdict)?,
        (_, Some(Answer::Shown(piece))) => println!(rt; ": flows {}", Flows(piece.as_slice()))?,
        (_, None) => println!(rt; ": no such scheme or policy")?,
    }
    Ok(())
}

/// Tells what was asked on a day, each request with its answer: they begin behind so many of other days.
pub fn tell(
    rt: &impl Print,
    requests: &[Request],
    answers: &[Option<Answer>],
    before: usize,
) -> anyhow::Result<()> {
    for (request, answer) in requests.iter().zip(answers.iter().skip(before)) {
        print!(rt; "  {request}")?;
        tell_answer(rt, *request, answer.as_ref())?;
    }
    Ok(())
}

/// Starts each job that passed on that day.
pub fn start_passed(
    rt: &impl Print,
    requests: &[Request],
    answers: &[Option<Answer>],
    before: usize,
) -> anyhow::Result<()> {
    for asked in requests.iter().zip(answers.iter().skip(before)) {
        if let (Request::Judge(node), Some(Answer::Judged(verdict))) = asked {
            if verdict.passed {
                println!(rt; "  start {node}")?;
            }
        }
    }
    Ok(())
}
